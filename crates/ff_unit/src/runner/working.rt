// A node at work, with what it sent and was not put yet.
ghost use Rattle.std.specs.Prelude.{◌≡◌, [], true};
ghost use Rattle.ff_unit.specs.Stage.{opened_stage};
ghost use Rattle.ff_unit.specs.StageParts.{TakesHeld, TakesSent};
ghost use Rattle.ff_unit.specs.StageSteps.{drops};
ghost use Rattle.ff_unit.specs.StageUnit.{stage_does, aborted_stage};
ghost use Rattle.ff_unit.specs.Units.{HandsReject, end_of};

use crate::{Mode, take_out};
use ff_node::{Node, Sends};
use ff_port::{End, Past};
use ff_rec::{Msg, Record};
use std::alloc::Global;
use std::marker::Model;

/// A node, and the records that it sent with a message behind them.
pub(super) struct Working<N> {
    pub(super) node: N,
    pub(super) sends: Sends,
    pub(super) back: Option<Msg<Record>>,
    pub(super) mode: Mode,
    pub(super) fin: Option<End>,
    done: bool,
    told: bool,
    // The rejects that were taken out.
    taken: Past<Record>,
    // From which sends take their memory.
    pub(super) alloc: Global,
}

impl<N: Drop> Drop for Working<N> {
    fn drop(self) {
        let Working {
            node,
            sends,
            back,
            mode: _,
            fin: _,
            done: _,
            told: _,
            taken,
            alloc: _,
        } = self;
        drop(node);
        drop(sends);
        drop(back);
        drop(taken);
    }
}

impl<N> Model for Working<N> {
    ghost use Rattle.std.specs.Prelude.{◌++◌};
    ghost use Rattle.std.specs.Option.{option_to_list};
    ghost use Rattle.ff_rec.specs.Streams.{carried};
    ghost use Rattle.ff_unit.specs.Stage.{StageState};

    ghost Value = { StageState N };

    ghost view = { λ s. record {
      node = s.node;
      held = carried s.sends.sends ++ option_to_list s.back;
      mode = s.mode;
      fin = s.fin;
      done = s.done;
      told = s.told;
      rejects = s.sends.rejects;
      keeps = s.sends.keeps;
      kept = s.sends.kept;
      taken = s.taken;
    } };
}

impl<N: Node> Working<N> {
    /// It did nothing, and its node is put into its opening state.
    pub(super) fn new(alloc: Global, node: N, keep: bool) -> Working<N>
        ensures { result ≡ opened_stage N.does node keep }
    {
        let mut node = node;
        node.svc_init();
        Working {
            node,
            sends: Sends::new(alloc, keep),
            back: None,
            mode: Mode::Live,
            fin: None,
            done: false,
            told: false,
            taken: Past::new(),
            alloc,
        }
    }

    /// What being told to abort makes of it.
    pub(super) fn end_aborted(&mut self)
        ensures { self.new ≡ aborted_stage self.old }
    {
        self.mode = Mode::Cut;
        self.fin = Some(End::Abort);
        self.done = true;
        self.told = true;
    }

    /// The first reject that it holds, which is taken out.
    pub(super) fn take_kept(&mut self) -> Option<Record>
        ensures { HandsReject (stage_does N.does) self.old result self.new }
    {
        let r = self.sends.take_reject()?;
        self.taken.note(&r);
        Some(r)
    }

    /// The first message that is held, which is taken out. Always inline: a message that is handed on through memory is moved once
    /// more, and the processor waits for that.
    #[inline(always)]
    pub(super) fn take_held(&mut self) -> Option<Msg<Record>>
        ensures taken { TakesHeld self.old.held result self.new.held }
        ensures rest { self.new ≡ record self.old { held = self.new.held } }
    {
        match self.sends.take_first() {
            Some(r) => Some(Msg::Item(r)),
            None => take_out(&mut self.back),
        }
    }

    /// The first record that the node sent, which is taken out.
    #[inline(always)]
    pub(super) fn take_sent(&mut self) -> Option<Record>
        ensures { TakesSent self.old result self.new }
    {
        self.sends.take_first()
    }

    /// A put was refused memory: all that is held is dropped, and Abort is held.
    pub(super) fn drop_held(&mut self)
        ensures { self.new ≡ drops self.old }
    {
        drop_sends(&mut self.sends);
        self.back = Some(Msg::Abort);
        self.mode = Mode::Cut;
        self.fin = self.fin.map(|_| End::Memory);
    }

    /// It has ended.
    pub(super) fn finish(&mut self)
        ensures { self.new ≡ record self.old { done = true } }
    {
        self.done = true;
    }

    /// How it will end, once that is decided.
    #[inline(always)]
    pub(super) fn fin(&self) -> Option<End>
        ensures { result ≡ self.now.fin }
    {
        self.fin
    }

    /// Whether it has ended.
    #[inline(always)]
    pub(super) fn is_done(&self) -> bool
        ensures { result ≡ self.now.done }
    {
        self.done
    }

    /// How it ended, once it has.
    pub(super) fn end(&self) -> Option<End>
        ensures { result ≡ end_of (stage_does N.does) self.now }
    {
        if self.done { self.fin } else { None }
    }

    /// How many records the node rejected, up to 2^64 - 1.
    pub(super) fn rejected(&self) -> u64
        ensures { result ≡ self.now.rejects }
    {
        self.sends.rejects()
    }
}

// Drops the records that were sent.
fn drop_sends(sends: &mut Sends)
    ensures { sends.new ≡ record sends.old { sends = [] } }
{
    while let Some(_) = sends.take_first() {}
}
