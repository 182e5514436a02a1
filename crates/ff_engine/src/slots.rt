// Ends of edges that are kept by the edges' numbers.
ghost use Rattle.std.specs.Prelude.{◌≡◌, ◌<◌, length, map, Some, IfOk, OnOk, All};
ghost use Rattle.ff_engine.specs.Slots.{Holds, taken_out, emptied, placed};

use ff_rec::NoMemory;
use std::alloc::Global;

/// Takes out the ends of these edges.
pub(crate) fn take_ends<E: Drop>(
    alloc: Global,
    edges: &[u32],
    slots: &mut Vec<Option<E>>,
) -> Result<Vec<E>, NoMemory>
    requires { Holds edges.now slots.old.items }
    ensures ends { IfOk result (λ ends. map (λ end. Some end) ends.items
        ≡ taken_out edges.now slots.old.items) }
    ensures left { OnOk result (slots.new.items ≡ emptied edges.now slots.old.items) }
{
    let mut ends = Vec::new(alloc);
    for edge in edges {
        let Some(end) = slots[*edge as usize].take() else {
            unreachable!()
        };
        ends.push(end)?;
    }
    Ok(ends)
}

/// Puts ends back at the numbers of their edges.
pub(crate) fn put_ends<E: Drop>(edges: &[u32], ends: Vec<E>, slots: &mut Vec<Option<E>>)
    requires { All (λ e. e < length slots.old.items) edges.now }
    ensures { slots.new.items ≡ placed edges.now ends.items slots.old.items }
{
    let mut ends = ends.into_iter();
    for edge in edges {
        slots[*edge as usize] = ends.next();
    }
}
