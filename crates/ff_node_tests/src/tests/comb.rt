// Small nodes run as one.
use super::{record, shows};
use ff_node::{Class, Comb, Next, Node, Records, Sends, node_end, node_step};
use ff_rec::{NoMemory, Record};
use std::alloc::Global;
use std::process::Abort;
use std::test::Fail;

// Rejects its first record, holds each other one back until the next one comes or the end, and ends after `most` records.
#[derive(Drop)]
struct Delay {
    most: u64,
    left: u64,
    begun: bool,
    held: Option<Record>,
}

impl Node for Delay {
    ghost use Rattle.std.specs.Prelude.{◌≡◌, ◌-◌, nat_eq, if◌then◌else◌, true, false, [], ◌∷◌, None, Some, refl};
    ghost use Rattle.std.specs.Option.{option_to_list};
    ghost use Rattle.ff_node.specs.declared.class.Class.TheVariants.{Ordered};

    ghost does = { record {
      class = λ s. Ordered;
      opening = λ s. record s { left = s.most; begun = false; held = None };
      sends = λ s x. option_to_list s.held;
      rejects = λ s x. if s.begun then [] else x ∷ [];
      next = λ s x. record s { left = s.left - 1; begun = true; held = if s.begun then Some x else None };
      ends = λ s x. nat_eq (s.left - 1) 0;
      last = λ s. option_to_list s.held;
      last_rejects = λ s. [];
    } };

    ghost keeps_kind = { record { opening_of_opening = λ s. refl; opening_of_next = λ s x. refl; class_of_opening = λ s. refl } };

    ghost class_law = { λ o. tt };

    fn class(&self) -> Class {
        Class::Ordered
    }

    fn copy(&self) -> Result<Delay, NoMemory> {
        Ok(Delay {
            most: self.most,
            left: self.most,
            begun: false,
            held: None,
        })
    }

    fn svc_init(&mut self) {
        self.left = self.most;
        self.begun = false;
        self.held = None;
    }

    fn svc(&mut self, r: Record, out: &mut Sends) -> Result<Next, NoMemory> {
        if let Some(held) = self.held.take() {
            out.send(held)?;
        }
        if self.begun {
            self.held = Some(r);
        } else {
            out.reject(r)?;
        }
        self.begun = true;
        self.left = self.left.saturating_sub(1);
        Ok(if self.left == 0 {
            Next::Eos
        } else {
            Next::GoOn
        })
    }

    fn eos_notify(&mut self, out: &mut Sends) -> Result<(), NoMemory> {
        if let Some(held) = self.held.take() {
            out.send(held)?;
        }
        Ok(())
    }

    fn svc_end(&mut self) {
        self.left = self.most;
        self.begun = false;
        self.held = None;
    }
}

fn delay_of(most: u64) -> Delay {
    Delay {
        most,
        left: most,
        begun: false,
        held: None,
    }
}

fn parts_of(alloc: Global, most: &[u64]) -> Result<Vec<Delay>, Fail> {
    let mut parts = Vec::new(alloc);
    for most in most {
        parts.push(delay_of(*most))?;
    }
    Ok(parts)
}

fn comb_of(rt: &impl Abort, alloc: Global, most: &[u64]) -> Result<Comb<Delay>, Fail> {
    let parts = parts_of(alloc, most)?;
    assert!(rt; !parts.is_empty());
    assert!(rt; parts.len() <= 64);
    Ok(Comb::new(parts))
}

// What a comb sends and rejects for `a` to `f`, behind an `x` that was sent before.
fn run(alloc: Global, mut comb: Comb<Delay>) -> Result<Sends, Fail> {
    let mut out = Sends::new(alloc, true);
    out.send(record(alloc, b"x")?)?;
    comb.svc_init();
    for name in b"abcdef" {
        if node_step(&mut comb, record(alloc, &[*name])?, &mut out)?.is_eos() {
            return Ok(out);
        }
    }
    node_end(&mut comb, &mut out)?;
    Ok(out)
}

// Whether these are records of one field each, with one of these bytes each.
fn are(records: &Records, names: &[u8]) -> bool {
    if records.len() != names.len() {
        return false;
    }
    for (k, name) in names.iter().enumerate() {
        if !shows(records.get(k), &[*name]) {
            return false;
        }
    }
    true
}

// A comb whose parts end after so many records: what comes out of it, and what the parts reject.
fn check_comb(
    rt: &impl Abort,
    alloc: Global,
    most: &[u64],
    sent: &[u8],
    rejected: &[u8],
) -> Result<(), Fail> {
    let comb = comb_of(rt, alloc, most)?;
    assert!(rt; comb.class() == Class::Ordered);
    let mut out = run(alloc, comb.copy()?)?;
    assert!(rt; are(&out.take_sends()?, sent));
    assert_eq!(rt; out.rejects(), rejected.len() as u64);
    assert!(rt; are(&out.take_kept(), rejected));
    Ok(())
}

// Each part rejects its first record.
#[test]
fn combs(rt: HostRuntime) -> Result<(), Fail> {
    check_comb(&rt, rt.alloc(), &[100], b"xbcdef", b"a")?;
    check_comb(&rt, rt.alloc(), &[100, 100], b"xcdef", b"ab")?;
    // The middle part ends by itself at its third record, and sends what it held.
    check_comb(&rt, rt.alloc(), &[100, 3, 100], b"xd", b"abc")?;
    // The first part ends at its second record, and the comb with it.
    check_comb(&rt, rt.alloc(), &[2, 100], b"x", b"ab")
}
