// What holds of sweeps, whatever the call.
ghost use Rattle.std.specs.Prelude.{◌≡◌, ℕ, Bool, true};
ghost use Rattle.ff_net.specs.Forms.{sweeps};
ghost use Rattle.ff_net.specs.Tree.{tree_of};
ghost use Rattle.ff_sweeps.specs.NeverStuck.{NeverStuck, EachSweepMoves};

use ff_net::Checked;
use ff_node::Node;

/// No network that sweeps gets stuck, with any limit of tasks, rings and input, and whether rejects are kept or not: in each
/// sweep some party moves, ends or is refused memory, and so many sweeps as the budget has end all parties.
pub fn sweeps_end<N: Node>(checked: &Checked<N>)
    requires { sweeps (tree_of checked.now.net) ≡ true }
    ensures moves { (m : ℕ) (keep : Bool) → EachSweepMoves N.does m keep (tree_of checked.now.net) }
    ensures ends { (m : ℕ) (keep : Bool) → NeverStuck N.does m keep (tree_of checked.now.net) }
{}
