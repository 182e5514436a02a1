// Rows that send a record as it came, or nothing: whether it passes.
ghost use Rattle.std.specs.Prelude.{◌≡◌};
ghost use Rattle.std.specs.Option.{option_map};
ghost use Rattle.ff_rec.specs.Fields.{field_at, same_bytes};
ghost use Rattle.ff_ops.specs.FieldOps.{occurs};

use crate::Needle;
use ff_rec::{Field, Record};

/// Whether field `f` is a text.
pub(crate) fn equals(f: usize, text: &Field, r: &Record) -> Option<bool>
    ensures { result ≡ option_map (λ bytes. same_bytes bytes text.now) (field_at f r.now) }
{
    Some(r.field(f)? == text.bytes())
}

/// Whether a text stands in field `f`.
pub(crate) fn contains(f: usize, text: &Needle, r: &Record) -> Option<bool>
    ensures { result ≡ option_map (λ bytes. occurs text.now bytes) (field_at f r.now) }
{
    Some(text.stands_in(r.field(f)?))
}
