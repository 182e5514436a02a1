// A schedule: which party steps, one number after another.
ghost use Rattle.std.specs.Prelude.{◌≡◌};
ghost use Rattle.ff_steps.specs.Core.{all_ended, taken_rejects, IsSound};
ghost use Rattle.ff_steps.specs.Events.{Follows};

use crate::net_core::Core;
use ff_unit::Unit;

/// One step of each named party in turn. A number that names none does nothing. It answers whether all have ended.
pub(crate) fn run_schedule<U: Unit>(core: &mut Core<U>, schedule: &[u32]) -> bool
    ensures follows { Follows U.does (IsSound U.does) schedule.now core.old core.new }
    ensures sound { IsSound U.does core.new }
    ensures ended { result ≡ all_ended U.does core.new }
    ensures taken { taken_rejects U.does core.new ≡ taken_rejects U.does core.old }
{
    for p in schedule {
        core.step(*p as usize);
    }
    core.all_ended()
}
