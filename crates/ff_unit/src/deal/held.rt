// What a deal holds to be put.
ghost use Rattle.std.specs.Prelude.{◌≡◌, ◌↔◌, [], ◌∷◌, ◌++◌, None, IsTrue};
ghost use Rattle.std.specs.Option.{option_to_list};
ghost use Rattle.ff_unit.specs.DealParts.{last_msg, TakesPair, PutsHeld};
ghost use Rattle.ff_unit.specs.Deals.{AreOpenOuts, on_outs};

use super::behind::{Behind, Last, Pair};
use crate::take_out;
use ff_port::{Ports, Put};
use ff_rec::Record;
use std::marker::Model;

/// What became of the first message that is held.
#[derive(Clone, Copy)]
pub enum HeldPut {
    /// No message is held.
    Nothing,
    Done,
    Full,
    NoMemory,
}

/// At most two messages, or one for each out, each with its out.
#[derive(Drop)]
pub struct Held {
    first: Option<Pair>,
    behind: Behind,
}

impl Model for Held {
    ghost use Rattle.std.specs.Prelude.{List, ℕ, ◌++◌};
    ghost use Rattle.std.specs.Option.{option_to_list};
    ghost use Rattle.ff_node.specs.Runs.{Message};

    ghost Value = { List (ℕ × Message) };

    ghost view = { λ h. option_to_list h.first ++ h.behind };
}

impl Held {
    /// Nothing is held.
    pub fn nothing() -> Held
        ensures { result ≡ [] }
    {
        Held {
            first: None,
            behind: Behind::of(None),
        }
    }

    /// Whether nothing is held.
    pub fn is_empty(&self) -> bool
        ensures { IsTrue result ↔ self.now ≡ [] }
    {
        self.first.is_none() && self.behind.is_empty()
    }

    /// One message.
    pub fn one(first: Pair) -> Held
        ensures { result ≡ first ∷ [] }
    {
        Held {
            first: Some(first),
            behind: Behind::of(None),
        }
    }

    /// Two messages.
    pub fn two(first: Pair, second: Pair) -> Held
        ensures { result ≡ first ∷ second ∷ [] }
    {
        Held {
            first: Some(first),
            behind: Behind::of(Some(second)),
        }
    }

    /// The last message of the stream for each of so many outs.
    pub fn on_all(outs: u32, last: Last) -> Held
        ensures { result ≡ on_outs 0 outs (last_msg last) }
    {
        Held {
            first: None,
            behind: Behind::on_all(outs, last),
        }
    }

    /// Holds one message, where nothing is held. Quicker than to make all of it anew.
    #[inline(always)]
    pub fn hold(&mut self, first: Pair)
        requires { self.old ≡ [] }
        ensures { self.new ≡ first ∷ [] }
    {
        self.first = Some(first);
    }

    /// Holds two messages, where nothing is held.
    #[inline(always)]
    pub fn hold_two(&mut self, first: Pair, second: Pair)
        requires { self.old ≡ [] }
        ensures { self.new ≡ first ∷ second ∷ [] }
    {
        self.first = Some(first);
        self.behind.hold(second);
    }

    /// Puts the first message, if one is held.
    #[inline(always)]
    pub fn put_first<P: Ports<Record>>(&mut self, ports: &mut P) -> HeldPut
        requires { AreOpenOuts (P.puts ports.old) self.old }
        ensures puts { PutsHeld P.grows self.old (P.puts ports.old) (P.rooms ports.old) result
            self.new (P.puts ports.new) (P.rooms ports.new) }
        ensures untouched { result ≡ HeldPut.Nothing → ports.new ≡ ports.old }
        ensures gots { P.gots ports.new ≡ P.gots ports.old }
        ensures link { P.link ports.new ≡ P.link ports.old }
    {
        match take_first(&mut self.first, &mut self.behind) {
            None => HeldPut::Nothing,
            Some((out, m)) => match ports.try_put(out as usize, m) {
                Put::Done => HeldPut::Done,
                Put::Full(m) => {
                    self.first = Some((out, m));
                    HeldPut::Full
                }
                Put::NoMemory(_) => HeldPut::NoMemory,
            },
        }
    }
}

// The first message that is held, which is taken out.
#[inline(always)]
fn take_first(first: &mut Option<Pair>, behind: &mut Behind) -> Option<Pair>
    ensures first { first.new ≡ None }
    ensures taken { TakesPair (option_to_list first.old ++ behind.old) result behind.new }
{
    match take_out(first) {
        Some(pair) => Some(pair),
        None => behind.take(),
    }
}
