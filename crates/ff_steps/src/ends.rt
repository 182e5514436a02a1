// How the units of a core ended.
ghost use Rattle.std.specs.Prelude.{◌≡◌, is_some};
ghost use Rattle.std.specs.List.{list_all, list_any};
ghost use Rattle.ff_unit.specs.Units.{end_of};
ghost use Rattle.ff_steps.specs.Core.{is_cut_off};
ghost use Rattle.ff_steps.specs.NetUnits.{any_over};

use crate::NetUnit;
use ff_port::End;
use ff_unit::Unit;

/// Whether all of them have ended.
pub(crate) fn all_done<U: Unit>(units: &[U]) -> bool
    ensures { result ≡ list_all (λ u. is_some (end_of U.does u)) units.now }
{
    units.iter().all(|u| u.end().is_some())
}

/// Whether one of them ended otherwise than by Eos.
pub(crate) fn any_cut_off<U: Unit>(units: &[U]) -> bool
    ensures { result ≡ list_any (λ u. is_cut_off (end_of U.does u)) units.now }
{
    units.iter().any(|u| is_cut_off(u.end()))
}

/// Whether more tasks came to one of them than the limit allows.
pub(crate) fn any_over<N>(units: &[NetUnit<N>]) -> bool
    ensures { result ≡ any_over units.now }
{
    units.iter().any(|u| u.over())
}

// Whether a unit was cut off.
fn is_cut_off(end: Option<End>) -> bool
    ensures { result ≡ is_cut_off end }
{
    match end {
        None | Some(End::Eos) => false,
        Some(End::Abort | End::Memory) => true,
    }
}
