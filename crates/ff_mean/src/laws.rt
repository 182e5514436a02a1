// What holds of the words of this crate's contracts, whatever the call.
ghost use Rattle.ff_mean.specs.Runs.{PipelinesWithoutFeedback};

use ff_node::Node;

/// A network without feedback means its nodes one behind another, and is never over a limit.
pub fn networks_without_feedback_are_pipelines<N: Node>(_node: &N)
    ensures { PipelinesWithoutFeedback N.does }
{}
