// Soaks by threads, with summaries that were worked out apart.
use ff_soak::{SoakFault, Summary, print_summary, soak};
use ff_spawn::{RefuseAt, Threads};
use std::test::Fail;

// So many records by so many workers, with the keys and the total that are wanted.
const SOAKS: [(u64, u32, u64, i128); 4] = [
    (0, 1, 0, 0),
    (1, 2, 1, 1851),
    (3, 4, 3, 5106),
    (1000, 3, 6, 1498500),
];

// The summaries of small soaks.
#[test]
fn small_soaks(rt: HostRuntime) -> Result<(), Fail> {
    for (records, workers, keys, total) in SOAKS {
        let mut spawner = Threads::new(rt.clone()?);
        let answer = soak(&rt, rt.alloc(), records, workers, 64, &mut spawner);
        let wanted = Summary {
            records,
            keys,
            total,
        };
        assert_eq!(rt; answer, Ok(wanted));
        assert_eq!(rt; spawner.starts(), 5 * u64::from(workers) + 4);
    }
    Ok(())
}

// A start that is refused.
#[test]
fn a_refused_start_is_told(rt: HostRuntime) -> Result<(), Fail> {
    let refuse = vec![in rt.alloc(); 2]?;
    let mut spawner = RefuseAt::new(Threads::new(rt.clone()?), refuse);
    let answer = soak(&rt, rt.alloc(), 3, 1, 1, &mut spawner);
    assert_eq!(rt; answer, Err(SoakFault::Refused));
    Ok(())
}

// The three lines.
#[test]
fn a_summary_in_lines(rt: HostRuntime) -> Result<(), Fail> {
    let summary = Summary {
        records: 5,
        keys: 3,
        total: -5106,
    };
    let mut lines = Vec::new(rt.alloc());
    print_summary(&summary, &mut lines)?;
    assert_eq!(rt;
        lines.as_slice(),
        b"records 5\nkeys 3\ntotal -5106\n".as_slice()
    );
    Ok(())
}
