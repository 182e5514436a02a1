// Units that end early, while the input goes on: memory is short in a node.
use super::devices::{Host, Kind, RINGS, Ring, checked, expect_answer, run, sink_of, source_of};
use ff_engine::NetFault;
use ff_io::Source;
use ff_net::{Checked, Net, Route, Sched};
use ff_node::{Class, Next, Node, Sends};
use ff_rec::{NoMemory, Record};
use ff_spawn::Threads;
use ff_stream::RunFault;
use std::alloc::Global;
use std::process::Abort;
use std::test::Fail;

const SHORT: Kind = Kind::Broken(NetFault::Run(RunFault::NoMemory));

// A node that sends each record on. At a 2 it says that memory is short, as any node may at any time.
#[derive(Clone, Copy)]
struct Short;

impl Node for Short {
    ghost use Rattle.std.specs.Prelude.{false, [], ◌∷◌, refl};
    ghost use Rattle.ff_node.specs.declared.class.Class.TheVariants.{Plain};

    ghost does = { record {
      class = λ s. Plain;
      opening = λ s. s;
      sends = λ s x. x ∷ [];
      rejects = λ s x. [];
      next = λ s x. s;
      ends = λ s x. false;
      last = λ s. [];
      last_rejects = λ s. [];
    } };

    ghost keeps_kind = { record { opening_of_opening = λ s. refl; opening_of_next = λ s x. refl; class_of_opening = λ s. refl } };

    ghost class_law = { λ o. record { sends = λ ys x. refl; rejects = λ ys x. refl; ends = λ ys x. refl; last = λ ys. refl; last_rejects = λ ys. refl } };

    fn class(&self) -> Class {
        Class::Plain
    }

    fn copy(&self) -> Result<Short, NoMemory> {
        Ok(Short)
    }

    fn svc_init(&mut self) {}

    fn svc(&mut self, r: Record, out: &mut Sends) -> Result<Next, NoMemory> {
        if r.number(1) == Some(2) {
            return Err(NoMemory);
        }
        out.send(r)?;
        Ok(Next::GoOn)
    }

    fn eos_notify(&mut self, _out: &mut Sends) -> Result<(), NoMemory> {
        Ok(())
    }

    fn svc_end(&mut self) {}
}

// A farm of two pipes, or an all-to-all: a unit behind the one that is short ends with the Abort of that, while the other copy waits for
// more.
fn copies(alloc: Global, form: u32) -> Result<Net<Short>, Fail> {
    let pipe = Net::Pipe(vec![in alloc; Net::Leaf(Short), Net::Leaf(Short)]?);
    Ok(match form {
        0 => Net::Farm {
            workers: 2,
            sched: Sched::Rr,
            worker: Box::new(alloc, pipe)?,
        },
        1 => Net::Farm {
            workers: 2,
            sched: Sched::Od,
            worker: Box::new(alloc, pipe)?,
        },
        _ => Net::A2a {
            left: 2,
            left_node: Box::new(alloc, Net::Leaf(Short))?,
            route: Route::Rr,
            right: 2,
            right_node: Box::new(alloc, Net::Leaf(Short))?,
        },
    })
}

// Each read gives a line, behind which the caller waits until all units rest.
fn check_short<R: Host>(
    rt: &R,
    alloc: Global,
    net: &Checked<Short>,
    form: u32,
    ring: Ring,
) -> Result<(), Fail> {
    let mut source = source_of(alloc, b"1\n2\n3\n4\n5\n6\n7\n8\n", 0)?;
    let mut sink = sink_of(alloc, 99)?;
    let mut spawner = Threads::new(rt.clone()?);
    let answer = run(
        rt,
        alloc,
        net,
        ring,
        1,
        &mut source,
        &mut sink,
        &mut spawner,
    );
    expect_answer(rt, (b"", form), answer, SHORT, 0);
    let mut next = [0; 2];
    assert_eq!(rt; (source.read(&mut next), next), (Ok(2), *b"3\n"), "{form}");
    Ok(())
}

// A unit that has ended isn't waited for: the run comes to its end before the next read, and tells what was wanted.
#[test]
fn no_unit_that_ended_is_waited_for(rt: HostRuntime) -> Result<(), Fail> {
    for form in 0..3 {
        let net = checked(copies(rt.alloc(), form)?)?;
        for ring in RINGS {
            check_short(&rt, rt.alloc(), &net, form, ring)?;
        }
    }
    Ok(())
}
