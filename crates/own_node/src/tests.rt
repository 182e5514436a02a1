// What no clause says: that memory and threads are there, so that an answer comes.
use crate::network::own_network;
use crate::run::widest_line;
use ff_io::{MemSink, MemSource};
use ff_spawn::Threads;
use ff_stream::Stop;
use std::test::Fail;

// Inputs, what is written, and how many records are rejected.
const TABLES: [(&[u8], &[u8], u64); 3] = [
    (b"", b"0\n", 0),
    (b"a\t1\t2\nb\t5\nc\t1\t2\t3\t4\nd\n", b"2\n", 2),
    (b"a\t1\t2\t3\nb\t1", b"3\n", 0),
];

#[test]
fn the_widest_line_of_some_tables(rt: HostRuntime) -> Result<(), Fail> {
    let alloc = rt.alloc();
    let checked = own_network(alloc)?;
    for (input, wanted, rejected) in TABLES {
        let bytes = Vec::from_slice(alloc, input)?;
        let mut source = MemSource::new(bytes, 64, Vec::new(alloc));
        let mut sink = MemSink::new(alloc, 99, Vec::new(alloc))?;
        let mut spawner = Threads::new(rt.clone()?);
        let answer = widest_line(&rt, alloc, &checked, &mut source, &mut sink, &mut spawner);
        let Ok(ending) = answer else {
            return Err(Fail::from("the run broke off"));
        };
        assert!(rt; ending.stop == Stop::End);
        assert_eq!(rt; ending.report.rejected, rejected);
        assert_eq!(rt; sink.taken(), wanted);
    }
    Ok(())
}
