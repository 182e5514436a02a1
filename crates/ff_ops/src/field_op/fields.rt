// What is asked of a record's fields before anything changes.
ghost use Rattle.std.specs.Prelude.{◌≡◌, ◌-◌, None, false, IfOk, IsTrue};
ghost use Rattle.ff_rec.specs.Fields.{field_at};
ghost use Rattle.ff_ops.specs.Answered.{IsThere};

use ff_rec::{Field, NoMemory, Record};

/// Whether field `f` is there.
pub(crate) fn has_field(f: usize, r: &Record) -> bool
    ensures there { IsTrue result → IsThere f r.now }
    ensures missing { result ≡ false → field_at f r.now ≡ None }
{
    1 <= f && f <= r.len()
}

/// The bytes of field `f`, kept apart from the record.
pub(crate) fn field_copy(f: usize, r: &Record) -> Result<Option<Field>, NoMemory>
    ensures { IfOk result (λ field. field ≡ field_at f r.now) }
{
    match r.field(f) {
        Some(bytes) => Ok(Some(Field::of_plain(r.allocator(), bytes)?)),
        None => Ok(None),
    }
}
