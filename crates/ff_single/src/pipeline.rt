// Networks without feedback, record by record.
ghost use Rattle.std.specs.Prelude.{◌≡◌, ◌<◌, ◌≤◌, ℕ, false, length, map, IfOk};
ghost use Rattle.ff_net.specs.Forms.{has_wrap};
ghost use Rattle.ff_net.specs.Tree.{tree_of};
ghost use Rattle.ff_net.specs.Nodes.{nodes_in};
ghost use Rattle.ff_stream.specs.Endings.{Ran, CountsInput, output_count};
ghost use Rattle.ff_stream.specs.Jobs.{job};
ghost use Rattle.ff_stream.specs.Streams.{streams};
ghost use Rattle.ff_mean.specs.Pipelines.{ArePipelineOf};

use crate::groups::group;
use crate::meaning::run_whole;
use ff_io::{Sink, Source};
use ff_mean::laws::networks_without_feedback_are_pipelines;
use ff_net::Checked;
use ff_node::laws::comb_is_composition;
use ff_node::{Comb, Node};
use ff_rec::NoMemory;
use ff_stream::{Ending, RunFault, run_stream};
use std::alloc::Global;

/// Runs the nodes of a network, each fed with what the one before it sends. More than 64 are run as combs of combs.
pub(crate) fn run_pipeline<N: Node, I: Source, O: Sink>(
    alloc: Global,
    checked: &Checked<N>,
    nodes: Vec<N>,
    limit: u64,
    keep: bool,
    source: &mut I,
    sink: &mut O,
) -> Result<Ending, RunFault>
    requires nodes { nodes.items ≡ map N.does.opening (nodes_in (tree_of checked.now.net)) }
    requires no_wrap { has_wrap (tree_of checked.now.net) ≡ false }
    ensures run { Ran (job N.does (tree_of checked.now.net) checked.now.version limit keep)
        (streams I.left I.ended I.faults O.taken source.old source.new sink.old sink.new) result }
    ensures input_faults { CountsInput (I.faults source.old) (I.faults source.new) result }
    ensures output_faults { O.faults sink.new ≡ output_count (O.faults sink.old) result }
{
    match nodes.len() {
        0 => run_whole(alloc, checked, limit, keep, source, sink),
        _ => {
            networks_without_feedback_are_pipelines(&nodes[0]);
            run_nodes(alloc, checked, nodes, limit, keep, source, sink)
        }
    }
}

// Runs these nodes in a row, which stand for the network.
fn run_nodes<N: Node, I: Source, O: Sink>(
    alloc: Global,
    checked: &Checked<N>,
    nodes: Vec<N>,
    limit: u64,
    keep: bool,
    source: &mut I,
    sink: &mut O,
) -> Result<Ending, RunFault>
    requires { ArePipelineOf N.does (tree_of checked.now.net) N.does nodes.items }
    ensures run { Ran (job N.does (tree_of checked.now.net) checked.now.version limit keep)
        (streams I.left I.ended I.faults O.taken source.old source.new sink.old sink.new) result }
    ensures input_faults { CountsInput (I.faults source.old) (I.faults source.new) result }
    ensures output_faults { O.faults sink.new ≡ output_count (O.faults sink.old) result }
{
    match nodes.len() {
        1..=64 => run_few(alloc, checked, nodes, keep, source, sink),
        _ => {
            let groups = grouped(alloc, checked, nodes)?;
            run_groups(alloc, checked, groups, limit, keep, source, sink)
        }
    }
}

// Runs combs in a row. Where they are more than 64, as many again are one comb.
fn run_groups<N: Node, I: Source, O: Sink>(
    alloc: Global,
    checked: &Checked<N>,
    groups: Vec<Comb<N>>,
    limit: u64,
    keep: bool,
    source: &mut I,
    sink: &mut O,
) -> Result<Ending, RunFault>
    requires { ArePipelineOf N.does (tree_of checked.now.net)
        ⟦<Comb<N> as Node>⟧.does groups.items }
    ensures run { Ran (job N.does (tree_of checked.now.net) checked.now.version limit keep)
        (streams I.left I.ended I.faults O.taken source.old source.new sink.old sink.new) result }
    ensures input_faults { CountsInput (I.faults source.old) (I.faults source.new) result }
    ensures output_faults { O.faults sink.new ≡ output_count (O.faults sink.old) result }
{
    match groups.len() {
        1..=64 => run_few(alloc, checked, groups, keep, source, sink),
        _ => {
            let fewer = grouped(alloc, checked, groups)?;
            match fewer.len() {
                1..=64 => run_few(alloc, checked, fewer, keep, source, sink),
                _ => run_whole(alloc, checked, limit, keep, source, sink),
            }
        }
    }
}

// Combs that stand for the network where these nodes do.
fn grouped<N: Node, M: Node>(
    alloc: Global,
    checked: &Checked<N>,
    nodes: Vec<M>,
) -> Result<Vec<Comb<M>>, NoMemory>
    requires { ArePipelineOf N.does (tree_of checked.now.net) M.does nodes.items }
    ensures { IfOk result (λ groups. ArePipelineOf N.does (tree_of checked.now.net)
        ⟦<Comb<M> as Node>⟧.does groups.items) }
{
    let [first, ..] = nodes.as_slice() else {
        return Ok(Vec::new(alloc));
    };
    comb_is_composition(first);
    group(alloc, nodes)
}

// Runs at most as many nodes as a comb may have.
fn run_few<N: Node, M: Node, I: Source, O: Sink>(
    alloc: Global,
    checked: &Checked<N>,
    mut nodes: Vec<M>,
    keep: bool,
    source: &mut I,
    sink: &mut O,
) -> Result<Ending, RunFault>
    requires stand { ArePipelineOf N.does (tree_of checked.now.net) M.does nodes.items }
    requires some { 0 < length nodes.items }
    requires few { length nodes.items ≤ 64 }
    ensures run { (limit : ℕ) →
        Ran (job N.does (tree_of checked.now.net) checked.now.version limit keep)
        (streams I.left I.ended I.faults O.taken source.old source.new sink.old sink.new) result }
    ensures input_faults { CountsInput (I.faults source.old) (I.faults source.new) result }
    ensures output_faults { O.faults sink.new ≡ output_count (O.faults sink.old) result }
{
    let version = checked.version();
    comb_is_composition(&nodes[0]);
    match nodes.len() {
        // A comb round one node would only hand each record on.
        1 => match nodes.pop() {
            Some(node) => run_stream::<N, M, I, O>(alloc, node, version, keep, source, sink),
            None => unreachable!(),
        },
        _ => {
            let comb = Comb::new(nodes);
            run_stream::<N, Comb<M>, I, O>(alloc, comb, version, keep, source, sink)
        }
    }
}
