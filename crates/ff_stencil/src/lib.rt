//! Stencils: a line of numbers, each made anew from itself and its two neighbours, turn by turn;
//! and the chunks with halo cells by which a turn can be made in parts. No threads here.
#![tactic(auto)]

mod chunk;
mod laws;
mod rule;
mod sweep;
mod turn;

pub use chunk::{Chunk, Fresh};
pub use laws::chunks_make_the_turn;
pub use rule::StencilRule;
pub use sweep::{Swept, plain_sweep};
