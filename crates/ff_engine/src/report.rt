// What units rejected, and how they ended.
ghost use Rattle.std.specs.Prelude.{◌≡◌, ◌++◌, sum_by, IfOk, OnOk};
ghost use Rattle.std.specs.List.{flat_map, list_all};
ghost use Rattle.ff_rec.specs.Counts.{counted};
ghost use Rattle.ff_steps.specs.NetUnits.{any_over};
ghost use Rattle.ff_unit.specs.Units.{end_of};
ghost use Rattle.ff_engine.specs.Ends.{ends_by_eos};

use ff_port::End;
use ff_rec::{NoMemory, Records};
use ff_steps::NetUnit;
use ff_stream::Report;
use ff_unit::Unit;
use std::alloc::Global;

/// How many records units rejected, and those that they kept, from the first unit on.
pub(crate) fn report_of<U: Unit>(alloc: Global, units: &mut Vec<U>) -> Result<Report, NoMemory>
    ensures rejected { IfOk result
        (λ r. r.rejected ≡ counted (sum_by U.does.rejects units.old.items)) }
    ensures kept { IfOk result (λ r. r.kept ≡ flat_map U.does.kept units.old.items) }
{
    let rejected = rejected(units);
    let mut kept = Records::new(alloc);
    for unit in units.iter_mut() {
        take_rejects(unit, &mut kept)?;
    }
    Ok(Report { rejected, kept })
}

// Their rejects together, up to 2^64 - 1.
fn rejected<U: Unit>(units: &[U]) -> u64
    ensures { result ≡ counted (sum_by U.does.rejects units.now) }
{
    let mut count = 0u64;
    for unit in units {
        count = count.saturating_add(unit.rejected());
    }
    count
}

// Takes out the rejects that a unit kept, and puts them behind these.
fn take_rejects<U: Unit>(unit: &mut U, kept: &mut Records) -> Result<(), NoMemory>
    ensures { OnOk result (kept.new ≡ kept.old ++ U.does.kept unit.old) }
{
    while let Some(r) = unit.take_reject() {
        kept.push(r)?;
    }
    Ok(())
}

/// Whether more tasks came to the master of a wrap than the limit allows.
pub(crate) fn any_over<N>(units: &Vec<NetUnit<N>>) -> bool
    ensures { result ≡ any_over units.now.items }
{
    units.iter().any(|unit| unit.over())
}

/// Whether each unit has ended by Eos.
pub(crate) fn all_ended_by_eos<U: Unit>(units: &Vec<U>) -> bool
    ensures { result ≡ list_all (λ u. ends_by_eos (end_of U.does u)) units.now.items }
{
    units.iter().all(|unit| ends_by_eos(unit.end()))
}

/// Whether a stream or a unit has ended by Eos.
pub(crate) fn ends_by_eos(end: Option<End>) -> bool
    ensures { result ≡ ends_by_eos end }
{
    match end {
        Some(End::Eos) => true,
        None | Some(End::Abort | End::Memory) => false,
    }
}
