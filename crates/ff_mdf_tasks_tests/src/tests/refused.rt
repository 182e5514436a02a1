// Workers that can't be started.
use super::told::{checked, told};
use ff_spawn::{RefuseAt, Threads};
use std::test::Fail;

#[test]
fn each_start_refused_in_turn(rt: HostRuntime) -> Result<(), Fail> {
    let alloc = rt.alloc();
    let program = checked(alloc, b"a = copy 1; b = add a 1; out b")?;
    for k in 1..4 {
        let refuse = Vec::from_array(alloc, [k])?;
        let mut spawner = RefuseAt::new(Threads::new(rt.clone()?), refuse);
        let found = told(&rt, alloc, &program, 3, &mut spawner)?;
        let counts = (spawner.inner().starts(), spawner.inner().refused());
        assert_eq!(rt;
            (found.as_bytes(), counts),
            (b"refused".as_slice(), (k - 1, 1))
        );
    }
    Ok(())
}
