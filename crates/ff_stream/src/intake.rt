// How the records of a stream are taken in.
ghost use Rattle.std.specs.Prelude.{IsTrue, IfErr, OnOk, ◌≡◌, [], ◌∷◌};

use crate::Halt;
use ff_io::Sink;
use ff_node::Node;
use ff_rec::Record;

/// What takes the records of a stream one after another as they are read, and may write what is sent for them then.
pub trait Intake<N: Node> {
    ghost use Rattle.std.specs.Prelude.{ℕ, List, IsTrue, IfErr, OnOk, ◌≡◌, [], ◌∷◌};
    ghost use Rattle.ff_rec.specs.Lines.{Rec};
    ghost use Rattle.ff_stream.specs.Jobs.{Job};
    ghost use Rattle.ff_stream.specs.Works.{Goes, Halts, Drops, halt_count};
    ghost use Rattle.ff_stream.specs.declared.fault.Halt.{Halt};

    /// In this job it took these records since it began, and these bytes were written.
    ghost stands: { Job N → Self → List Rec → List ℕ → Type 0 };

    /// In this job it broke off at this halt, after it took these records, and these bytes were written.
    ghost halted: { Job N → Self → Halt → List Rec → List ℕ → Type 0 };

    /// Takes a record. After a refusal it takes no more.
    fn take<O: Sink>(&mut self, r: Record, sink: &mut O) -> Result<(), Halt>
        ensures ok { OnOk result (Goes stands self.old (r ∷ []) self.new
            (O.taken sink.old) (O.taken sink.new)) }
        ensures err { IfErr result (λ halt. Halts stands halted self.old (r ∷ []) halt self.new
            (O.taken sink.old) (O.taken sink.new)) }
        ensures counts { O.faults sink.new ≡ halt_count (O.faults sink.old) result };

    /// Called where the next records may be long in coming: what is held for the sink is written. After a refusal it
    /// takes no more.
    fn pause<O: Sink>(&mut self, sink: &mut O) -> Result<(), Halt>
        ensures ok { OnOk result (Goes stands self.old [] self.new
            (O.taken sink.old) (O.taken sink.new)) }
        ensures err { IfErr result (λ halt. Halts stands halted self.old [] halt self.new
            (O.taken sink.old) (O.taken sink.new)) }
        ensures counts { O.faults sink.new ≡ halt_count (O.faults sink.old) result };

    /// Whether no record that is to come changes anything. Then none need be made.
    fn drops(&self) -> bool
        ensures { IsTrue result → Drops stands self.now };
}
