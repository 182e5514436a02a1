// How units with several ins or outs come to their end.
ghost use Rattle.std.specs.Prelude.{◌≡◌};
ghost use Rattle.std.specs.Option.{option_to_list};
ghost use Rattle.ff_unit.specs.Closing.{spoiled, told_first, told_well};

use ff_port::End;
use ff_rec::{Msg, Record};

/// How a unit will end that took an Abort.
pub fn spoil(end: End) -> End
    ensures { result ≡ spoiled end }
{
    match end {
        End::Eos => End::Abort,
        End::Abort => End::Abort,
        End::Memory => End::Memory,
    }
}

/// What a merge tells at once of an Abort that it takes, unless it told one before.
pub(crate) fn first_abort(end: End) -> Option<Msg<Record>>
    ensures { option_to_list result ≡ told_first end }
{
    match end {
        End::Eos => Some(Msg::Abort),
        End::Abort => None,
        End::Memory => None,
    }
}

/// What it tells once no in gives any more: Eos, unless it told an Abort before.
pub(crate) fn last_eos(end: End) -> Option<Msg<Record>>
    ensures { option_to_list result ≡ told_well end }
{
    match end {
        End::Eos => Some(Msg::Eos),
        End::Abort => None,
        End::Memory => None,
    }
}
