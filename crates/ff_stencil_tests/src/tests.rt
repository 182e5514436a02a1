// What no clause says: that the calls succeed while memory is there, and that the definitions mean
// these cells, which were worked out by hand.
use ff_dc::Numbers;
use ff_rec::NoMemory;
use ff_stencil::{Chunk, StencilRule, plain_sweep};
use std::alloc::Global;
use std::process::Abort;
use std::test::Fail;

// A line of these cells.
fn line(alloc: Global, cells: &[i64]) -> Result<Numbers, NoMemory> {
    let mut numbers = Numbers::new(alloc);
    for c in cells {
        numbers.push(*c)?;
    }
    Ok(numbers)
}

#[test]
fn sweep_rows(rt: HostRuntime) -> Result<(), Fail> {
    let rows: [(StencilRule, &[i64], u32, &[i64], u32); 9] = [
        (StencilRule::Max, &[1, 5, 2, 0, 0], 1, &[5, 5, 5, 2, 0], 1),
        (StencilRule::Max, &[1, 5, 2, 0, 0], 100, &[5, 5, 5, 5, 5], 4),
        (StencilRule::Smooth, &[0, 8, 0], 1, &[2, 4, 2], 1),
        (StencilRule::Smooth, &[4, 4], 10_000, &[4, 4], 1),
        (StencilRule::Smooth, &[-3, 0, 0], 2, &[-1, 0, 0], 2),
        (
            StencilRule::Smooth,
            &[i64::MIN, i64::MIN, i64::MAX],
            1,
            &[
                i64::MIN,
                -4_611_686_018_427_387_904,
                4_611_686_018_427_387_903,
            ],
            1,
        ),
        (
            StencilRule::Parity,
            &[0, 0, 1, 0, -3],
            2,
            &[1, 0, 1, 0, 0],
            2,
        ),
        (StencilRule::Parity, &[1], 10_000, &[0], 2),
        (StencilRule::Parity, &[], 100, &[], 1),
    ];
    for (rule, cells, turns, want, made) in rows {
        let numbers = line(rt.alloc(), cells)?;
        let swept = plain_sweep(rt.alloc(), rule, &numbers, turns)?;
        let seen = (swept.numbers.as_slice(), swept.turns);
        assert_eq!(rt; seen, (want, made), "{rule:?} of {cells:?}");
    }
    Ok(())
}

#[test]
fn chunks_with_their_halo_cells(rt: HostRuntime) -> Result<(), Fail> {
    let rows: [(&[i64], &[i64], usize); 4] = [
        (&[1, 1, 5, 2], &[5, 5], 1),
        (&[5, 2, 0, 0], &[5, 2], 2),
        (&[0, 0, 0], &[0], 0),
        (&[7, 7], &[], 0),
    ];
    for (cells, want, changed) in rows {
        let chunk = Chunk {
            rule: StencilRule::Max,
            first: 2,
            cells: line(rt.alloc(), cells)?,
        };
        let fresh = chunk.renew(rt.alloc())?;
        let seen = (fresh.first, fresh.cells.as_slice(), fresh.changes);
        assert_eq!(rt; seen, (2, want, changed), "{cells:?}");
    }
    Ok(())
}
