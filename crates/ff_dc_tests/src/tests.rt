// What no clause says: that the calls succeed while memory is there, and that the definitions mean
// these values.
mod divided;
mod edges;

use ff_dc::{Four, Numbers};
use ff_rec::NoMemory;
use std::alloc::Global;

// The numbers of a slice.
fn numbers_of(alloc: Global, ns: &[i64]) -> Result<Numbers, NoMemory> {
    let mut numbers = Numbers::new(alloc);
    for n in ns {
        numbers.push(*n)?;
    }
    Ok(numbers)
}

// The values as they stand.
fn values(four: Four) -> [i128; 4] {
    [four.get(0), four.get(1), four.get(2), four.get(3)]
}
