// What holds of the words of this crate's contracts, whatever the call.
ghost use Rattle.ff_mdf.specs.Orders.{AnyOrderGivesStore};
ghost use Rattle.ff_mdf.specs.Versions.{VersionsAreValues};

/// The value that a name has before a statement is what its latest earlier writer gave it.
pub fn each_operand_has_its_latest_writers_value()
    ensures { VersionsAreValues }
{}

/// In whatever order statements came back, each once the latest earlier writers of what it reads
/// were back: each gave what it gives in program order, and so does each name.
pub fn any_order_gives_the_store()
    ensures { AnyOrderGivesStore }
{}
