// What is asked of several nodes at once: their class, their opening states, their end and copies of them.
ghost use Rattle.std.specs.Prelude.{◌≡◌, map, IfOk};
ghost use Rattle.ff_node.specs.Comb.{joint_class, both};

use crate::{Class, Node};
use ff_rec::NoMemory;

/// The class of nodes one behind another.
pub(crate) fn joint_class<N: Node>(nodes: &[N]) -> Class
    ensures { result ≡ joint_class (map N.does.class nodes.now) }
{
    let [first, others @ ..] = nodes else {
        return Class::Plain;
    };
    let mut class = first.class();
    for node in others {
        class = both(class, node.class());
    }
    class
}

// The class of two nodes, one behind the other.
fn both(front: Class, back: Class) -> Class
    ensures { result ≡ both front back }
{
    match (front, back) {
        (Class::Plain, Class::Plain) => Class::Plain,
        (Class::Ordered, _) | (_, Class::Ordered) => Class::Ordered,
        _ => Class::Fold,
    }
}

/// Puts all nodes into their opening states.
pub(crate) fn open<N: Node>(nodes: &mut [N])
    ensures { nodes.new ≡ map N.does.opening nodes.old }
{
    for node in nodes.iter_mut() {
        node.svc_init();
    }
}

/// The end of all nodes. For one that has ended by itself it is the second, which changes nothing.
pub(crate) fn close<N: Node>(nodes: &mut [N])
    ensures { nodes.new ≡ map N.does.opening nodes.old }
{
    for node in nodes.iter_mut() {
        node.svc_end();
    }
}

/// Copies of these nodes in their opening states.
pub(crate) fn copies<N: Node>(nodes: &Vec<N>) -> Result<Vec<N>, NoMemory>
    ensures { IfOk result (λ other. other.items ≡ map N.does.opening nodes.now.items) }
{
    let mut other = Vec::with_capacity(*nodes.allocator(), nodes.len())?;
    for node in nodes {
        other.push(node.copy()?)?;
    }
    Ok(other)
}
