// What a deal holds behind the message that comes first.
ghost use Rattle.std.specs.Prelude.{◌≡◌, ◌↔◌, [], ◌∷◌, IsTrue};
ghost use Rattle.std.specs.Option.{option_to_list};
ghost use Rattle.ff_unit.specs.DealParts.{last_msg, TakesPair};
ghost use Rattle.ff_unit.specs.Deals.{on_outs};

use crate::take_out;
use ff_rec::{Msg, Record};
use std::marker::Model;

/// A message with its out.
pub type Pair = (u32, Msg<Record>);

/// What is told on every out at the end.
#[derive(Clone, Copy)]
pub enum Last {
    Eos,
    Abort,
}

impl Last {
    // It as a message.
    fn message(self) -> Msg<Record>
        ensures { result ≡ last_msg self }
    {
        match self {
            Last::Eos => Msg::Eos,
            Last::Abort => Msg::Abort,
        }
    }
}

/// At most one message, and then the last one of the stream for each out from `next` on.
#[derive(Drop)]
pub struct Behind {
    first: Option<Pair>,
    last: Last,
    next: u32,
    outs: u32,
}

impl Model for Behind {
    ghost use Rattle.std.specs.Prelude.{List, ℕ, ◌++◌, ◌-◌};
    ghost use Rattle.std.specs.Option.{option_to_list};
    ghost use Rattle.ff_node.specs.Runs.{Message};
    ghost use Rattle.ff_unit.specs.DealParts.{last_msg};
    ghost use Rattle.ff_unit.specs.Deals.{on_outs};

    ghost Value = { List (ℕ × Message) };

    ghost view = { λ b. option_to_list b.first
        ++ on_outs b.next (b.outs - b.next) (last_msg b.last) };
}

impl Behind {
    /// At most one message.
    pub fn of(first: Option<Pair>) -> Behind
        ensures { result ≡ option_to_list first }
    {
        Behind {
            first,
            last: Last::Eos,
            next: 0,
            outs: 0,
        }
    }

    /// The last message of the stream for each of so many outs.
    pub fn on_all(outs: u32, last: Last) -> Behind
        ensures { result ≡ on_outs 0 outs (last_msg last) }
    {
        Behind {
            first: None,
            last,
            next: 0,
            outs,
        }
    }

    /// Holds one message, where there is none.
    #[inline(always)]
    pub fn hold(&mut self, first: Pair)
        requires { self.old ≡ [] }
        ensures { self.new ≡ first ∷ [] }
    {
        self.first = Some(first);
    }

    /// Whether there is none.
    pub fn is_empty(&self) -> bool
        ensures { IsTrue result ↔ self.now ≡ [] }
    {
        self.first.is_none() && self.outs <= self.next
    }

    /// The first message, which is taken out.
    #[inline(always)]
    pub fn take(&mut self) -> Option<Pair>
        ensures { TakesPair self.old result self.new }
    {
        if let Some(pair) = take_out(&mut self.first) {
            return Some(pair);
        }
        if self.outs <= self.next {
            return None;
        }
        let out = self.next;
        self.next += 1;
        Some((out, self.last.message()))
    }
}
