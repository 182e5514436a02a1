// Runs over a source and a sink by sweeps.
ghost use Rattle.std.specs.Prelude.{◌≡◌, ◌≤◌, [], true, IfOk};
ghost use Rattle.ff_net.specs.Forms.{sweeps};
ghost use Rattle.ff_net.specs.Tree.{tree_of};
ghost use Rattle.ff_single.specs.Wholes.{Solved};
ghost use Rattle.ff_steps.specs.Core.{all_ended, taken_rejects};
ghost use Rattle.ff_steps.specs.NetUnits.{net_does};
ghost use Rattle.ff_stream.specs.Endings.{Ran, CountsInput, output_count};
ghost use Rattle.ff_stream.specs.Jobs.{job};
ghost use Rattle.ff_stream.specs.Streams.{streams};

use crate::rejects::take_rejects;
use crate::{Sweeps, run_sweeps};
use ff_io::{Sink, Source};
use ff_mean::Outcome;
use ff_net::Checked;
use ff_node::{Node, Records};
use ff_rec::NoMemory;
use ff_single::{Ending, RunFault, Solve, run_solved};
use ff_steps::NetCore;
use std::alloc::Global;

/// A network that is swept, with queues of `cap` messages.
#[derive(Drop)]
struct Swept<N: Node> {
    checked: Checked<N>,
    cap: u32,
    limit: u64,
    keep: bool,
    ghost plain: { sweeps (tree_of checked.net) ≡ true },
    ghost low: { 1 ≤ cap },
    ghost high: { cap ≤ 4096 },
}

impl<N: Node> Solve<N> for Swept<N> {
    ghost use Rattle.ff_net.specs.Tree.{tree_of};
    ghost use Rattle.ff_stream.specs.Jobs.{job};

    ghost runs = { λ w. job N.does (tree_of w.checked.net) w.checked.version w.limit w.keep };

    fn solve(self, alloc: Global, input: Records) -> Result<Outcome, NoMemory> {
        let keep = self.keep;
        let mut core = NetCore::new(alloc, self.checked, self.cap, self.limit, keep, input)?;
        match run_sweeps(&mut core) {
            Sweeps::All(_) => outcome(alloc, core, keep),
            Sweeps::NoMemory => Err(NoMemory),
        }
    }
}

// What a core gave that has ended.
fn outcome<N: Node>(alloc: Global, mut core: NetCore<N>, keep: bool) -> Result<Outcome, NoMemory>
    requires ended { all_ended (net_does N.does) core.core ≡ true }
    requires untaken { taken_rejects (net_does N.does) core.core ≡ [] }
    requires keeps { keep ≡ core.keep }
    ensures { IfOk result (λ outcome. Solved (job N.does (tree_of core.checked.net) core.checked.version
        core.limit core.keep) core.core.input outcome) }
{
    if core.short_of_memory() {
        return Err(NoMemory);
    }
    // It names no party and changes nothing, and its clauses say what holds of a core that has ended.
    core.run_schedule(&[]);
    if core.over() {
        return Ok(Outcome::Over);
    }
    let rejected = core.rejected();
    let kept = if keep {
        take_rejects(alloc, &mut core)?
    } else {
        Records::new(alloc)
    };
    Ok(Outcome::Done {
        sent: core.into_output(),
        rejected,
        kept,
    })
}

/// Runs a network over the records of a source by sweeps over its units, and writes the text of what it sends to a sink. The
/// whole input is read first. The queues between the units hold `cap` messages.
pub fn run_swept<N: Node, I: Source, O: Sink>(
    alloc: Global,
    checked: Checked<N>,
    cap: u32,
    limit: u64,
    keep: bool,
    source: &mut I,
    sink: &mut O,
) -> Result<Ending, RunFault>
    requires plain { sweeps (tree_of checked.net) ≡ true }
    requires low { 1 ≤ cap }
    requires high { cap ≤ 4096 }
    ensures run { Ran (job N.does (tree_of checked.net) checked.version limit keep)
        (streams I.left I.ended I.faults O.taken source.old source.new sink.old sink.new) result }
    ensures input_faults { CountsInput (I.faults source.old) (I.faults source.new) result }
    ensures output_faults { O.faults sink.new ≡ output_count (O.faults sink.old) result }
{
    let version = checked.version();
    let swept = Swept {
        checked,
        cap,
        limit,
        keep,
    };
    run_solved(alloc, version, swept, source, sink)
}
