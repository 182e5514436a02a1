// A part of the outermost pipe, and the whole pipe.
ghost use Rattle.std.specs.Prelude.{◌≡◌, ◌⊎◌, true, false, [], IfOk};
ghost use Rattle.ff_net.specs.Forms.{has_wrap};
ghost use Rattle.ff_net.specs.Good.{Good, GoodParts, PlainNode, EachTopOrNone};
ghost use Rattle.ff_net.specs.Meaning.{mean, mean_rejected};
ghost use Rattle.ff_net.specs.RuleTests.{is_wrap};
ghost use Rattle.ff_net.specs.Tree.{tree_of, trees_of};
ghost use Rattle.ff_mean.specs.Gathering.{HasRunNet, HasRunParts, HasRunRounds};

use crate::pipeline::run_pipeline;
use crate::rounds::run_rounds;
use ff_net::{Net, Test};
use ff_node::{Comb, Node, Records, Sends};
use ff_rec::NoMemory;
use std::alloc::Global;

/// What the parts of the outermost pipe give one behind another, or `None` where a wrap is over its limit. What they
/// reject is added to `out`.
pub(crate) fn run_parts<N: Node>(
    alloc: Global,
    parts: &[Net<N>],
    limit: u64,
    input: Records,
    out: &mut Sends,
) -> Result<Option<Records>, NoMemory>
    requires good { GoodParts N.does (trees_of parts.now) }
    requires wraps { EachTopOrNone (trees_of parts.now) }
    requires empty { out.old.sends ≡ [] }
    ensures { IfOk result (λ answer. HasRunParts N.does limit (trees_of parts.now) input out.old out.new answer) }
{
    let mut records = input;
    for part in parts {
        let Some(given) = run_part(alloc, part, limit, records, out)? else {
            return Ok(None);
        };
        records = given;
    }
    Ok(Some(records))
}

/// What one part gives, a wrap or a network without feedback, or `None` where the wrap is over its limit. What it rejects
/// is added to `out`.
pub(crate) fn run_part<N: Node>(
    alloc: Global,
    part: &Net<N>,
    limit: u64,
    input: Records,
    out: &mut Sends,
) -> Result<Option<Records>, NoMemory>
    requires good { Good N.does (tree_of part.now) }
    requires wraps { (is_wrap (tree_of part.now) ≡ true) ⊎ (has_wrap (tree_of part.now) ≡ false) }
    requires empty { out.old.sends ≡ [] }
    ensures { IfOk result (λ answer. HasRunNet N.does limit (tree_of part.now) input out.old out.new answer) }
{
    if let Net::Wrap { worker, test, .. } = part {
        return run_wrap(alloc, worker, test, limit, input, out);
    }
    Ok(Some(run_pipeline(part.nodes(alloc)?, input, out)?))
}

// A wrap of a Plain node, or of several that run as one.
fn run_wrap<N: Node>(
    alloc: Global,
    worker: &Net<N>,
    test: &Test,
    limit: u64,
    input: Records,
    out: &mut Sends,
) -> Result<Option<Records>, NoMemory>
    requires plain { PlainNode N.does (tree_of worker.now) }
    requires good { Good N.does (tree_of worker.now) }
    requires empty { out.old.sends ≡ [] }
    ensures { IfOk result (λ answer. HasRunRounds (mean N.does limit (tree_of worker.now)) (mean_rejected N.does limit (tree_of worker.now))
        test.now limit input out.old out.new answer) }
{
    if let Net::Leaf(node) = worker {
        return run_rounds(alloc, node.copy()?, test, limit, input, out);
    }
    let comb = Comb::new(worker.nodes(alloc)?);
    run_rounds(alloc, comb, test, limit, input, out)
}
