// What no clause says: that memory is there, and that a schedule and sweeps do their work.
mod core_rows;
mod doubling;
mod narrow;
mod schedules;
mod seen;
mod sieve;
mod stages;
mod sweeps;
mod units;
mod wrap_nets;
mod wraps;

use ff_net::{Checked, Net, Version, check};
use ff_node::{Class, Next, Node, Records, Sends};
use ff_rec::{Field, NoMemory, Record};
use ff_steps::NetCore;
use seen::holds;
use std::alloc::Global;
use std::process::Abort;
use std::test::Fail;

// Sends each record on, or rejects each.
#[derive(Clone, Copy, Debug)]
struct Gate {
    shut: bool,
}

impl Node for Gate {
    ghost use Rattle.std.specs.Prelude.{false, [], ◌∷◌, if◌then◌else◌, refl};
    ghost use Rattle.ff_node.specs.Behaviour.{Behaviour};
    ghost use Rattle.ff_node.specs.Stateless.{KeepsKind-stateless, IsPlainNode-stateless};
    ghost use Rattle.ff_node.specs.declared.class.Class.TheVariants.{Plain};

    ghost does = { record {
      class = λ s. Plain;
      opening = λ s. s;
      sends = λ s x. if s.shut then [] else x ∷ [];
      rejects = λ s x. if s.shut then x ∷ [] else [];
      next = λ s x. s;
      ends = λ s x. false;
      last = λ s. [];
      last_rejects = λ s. [];
    } };

    ghost keeps_kind = { KeepsKind-stateless _ (record { opening = λ s. refl; next = λ s x. refl; ends = λ s x. refl; last = λ s. refl; last_rejects = λ s. refl }) };

    ghost class_law = { λ o. IsPlainNode-stateless _ (record { opening = λ s. refl; next = λ s x. refl; ends = λ s x. refl; last = λ s. refl; last_rejects = λ s. refl }) o };

    fn class(&self) -> Class {
        Class::Plain
    }

    fn copy(&self) -> Result<Gate, NoMemory> {
        Ok(*self)
    }

    fn svc_init(&mut self) {}

    fn svc(&mut self, r: Record, out: &mut Sends) -> Result<Next, NoMemory> {
        if self.shut {
            out.reject(r)?;
        } else {
            out.send(r)?;
        }
        Ok(Next::GoOn)
    }

    fn eos_notify(&mut self, _out: &mut Sends) -> Result<(), NoMemory> {
        Ok(())
    }

    fn svc_end(&mut self) {}
}

fn record(alloc: Global, bytes: &[u8]) -> Result<Record, Fail> {
    let field = Field::new(alloc, bytes)?;
    Ok(Record::one(alloc, &field)?)
}

// Records of one field each, which have spaces between them here.
fn records(alloc: Global, fields: &str) -> Result<Records, Fail> {
    let mut list = Records::new(alloc);
    for field in fields.split(' ') {
        list.push(record(alloc, field.as_bytes())?)?;
    }
    Ok(list)
}

// Whether a record is there, and is the one of this field.
fn shows(r: Option<&Record>, bytes: &[u8]) -> bool {
    match r {
        Some(r) => r.joined() == bytes,
        None => false,
    }
}

// The network, which keeps all rules.
fn checked<N: Node>(net: Net<N>) -> Result<Checked<N>, Fail> {
    Ok(check(net, Version::Two).ok().ok_or("refused")?)
}

// The core of a network before its first event.
fn opened<N: Node>(
    rt: &impl Abort,
    alloc: Global,
    net: Net<N>,
    cap: u32,
    input: &str,
) -> Result<NetCore<N>, Fail> {
    let checked = checked(net)?;
    assert!(rt; 1 <= cap && cap <= 4096);
    let input = records(alloc, input)?;
    Ok(NetCore::new(alloc, checked, cap, 1, true, input)?)
}

fn leaf(shut: bool) -> Net<Gate> {
    Net::Leaf(Gate { shut })
}

// Runs a schedule, and whether all have ended behind it is this.
fn expect_run(rt: &impl Abort, core: &mut NetCore<Gate>, schedule: &[u32], ended: bool) {
    holds(
        rt,
        &schedule,
        "an end",
        core.run_schedule(schedule) == ended,
    );
}

// The output is the record of this field alone.
fn expect_one(rt: &impl Abort, core: &NetCore<Gate>, bytes: &[u8]) {
    holds(rt, &bytes, "one record", core.output().len() == 1);
    holds(rt, &bytes, "the record", shows(core.output().get(0), bytes));
}

// So many were rejected, and the next one that is taken out is the record of this field.
fn expect_reject(rt: &impl Abort, core: &mut NetCore<Gate>, count: u64, bytes: &[u8]) {
    holds(rt, &bytes, "so many", core.rejected() == count);
    let reject = core.take_reject();
    holds(rt, &bytes, "the reject", shows(reject.as_ref(), bytes));
}

// So many were rejected, and none is left to be taken out.
fn expect_no_reject(rt: &impl Abort, core: &mut NetCore<Gate>, count: u64) {
    holds(rt, &count, "so many", core.rejected() == count);
    holds(rt, &count, "none is left", core.take_reject().is_none());
}

#[test]
fn one_record_through_one_node(rt: HostRuntime) -> Result<(), Fail> {
    let mut core = opened(&rt, rt.alloc(), leaf(false), 1, "a")?;

    // The feeder puts the record, the unit takes it and sends it, the drainer keeps it. No party has ended.
    expect_run(&rt, &mut core, &[1, 0, 0, 2], false);
    expect_one(&rt, &core, b"a");

    // Eos goes the same way, and the unit ends a step later. A unit that has ended stays so.
    expect_run(&rt, &mut core, &[1, 0, 0, 2, 0, 0], true);
    expect_one(&rt, &core, b"a");
    holds(&rt, &"at the end", "memory", !core.short_of_memory());
    expect_no_reject(&rt, &mut core, 0);
    Ok(())
}

#[test]
fn rejects_along_the_pipeline(rt: HostRuntime) -> Result<(), Fail> {
    let net = Net::Pipe(vec![in rt.alloc(); leaf(false), leaf(true)]?);
    let mut core = opened(&rt, rt.alloc(), net, 2, "a b")?;

    // A number that names no party does nothing, nor does a step that finds its edge empty.
    expect_run(&rt, &mut core, &[9, 4, 3, 0, 1], false);
    expect_run(&rt, &mut core, &[2, 2, 2, 2, 0, 0, 0, 0, 1, 1], false);
    expect_reject(&rt, &mut core, 2, b"a");

    expect_run(&rt, &mut core, &[2, 0, 0, 0, 1, 1, 1, 3], true);
    holds(&rt, &"at the end", "no output", core.output().is_empty());
    expect_reject(&rt, &mut core, 2, b"b");
    expect_no_reject(&rt, &mut core, 2);
    Ok(())
}
