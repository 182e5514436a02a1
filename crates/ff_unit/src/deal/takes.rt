// What a deal does with the messages that it takes.
ghost use Rattle.std.specs.Prelude.{◌≡◌, ◌<◌, ◌≤◌, ◌∷◌, []};
ghost use Rattle.ff_rec.specs.Fields.{field_at};
ghost use Rattle.ff_rec.specs.declared.msg.Msg.TheVariants.{Abort as AbortMsg};
ghost use Rattle.ff_node.specs.Picks.{place_of};
ghost use Rattle.ff_unit.specs.Deals.{deal_takes, deal_ends, deals, deals_one, deal_outs, behind, on_all};
ghost use Rattle.ff_unit.specs.Deals.{next_place};

use super::Deal;
use super::behind::Last;
use super::held::Held;
use crate::{Dealing, key_place, spoil};
use ff_port::End;
use ff_rec::{Msg, Record};

impl Deal {
    /// Takes a message, while nothing is held.
    #[inline(always)]
    pub(super) fn receive(&mut self, m: Msg<Record>)
        requires held { self.old.held ≡ [] }
        requires turn { self.old.turn < self.old.places }
        ensures { self.new ≡ deal_takes self.old m }
    {
        match m {
            Msg::Item(r) => self.deal(r),
            Msg::Mark => {}
            Msg::Pick(_) => {}
            Msg::Eos => self.close(self.end),
            Msg::Abort => self.close(spoil(self.end)),
        }
    }

    // For want of memory records are dropped.
    #[inline(always)]
    fn deal(&mut self, r: Record)
        requires held { self.old.held ≡ [] }
        requires turn { self.old.turn < self.old.places }
        ensures { self.new ≡ deals self.old.end self.old r }
    {
        match self.end {
            End::Eos | End::Abort => self.deal_one(r),
            End::Memory => {}
        }
    }

    // The record goes to its place, or waits for one with room.
    #[inline(always)]
    fn deal_one(&mut self, r: Record)
        requires held { self.old.held ≡ [] }
        requires turn { self.old.turn < self.old.places }
        ensures { self.new ≡ deals_one self.old.way self.old r }
    {
        match self.way {
            Dealing::InTurn => {
                self.held.hold((self.turn, Msg::Item(r)));
                self.turn = next_place(self.places, self.turn);
            }
            Dealing::OnDemand => self.free = Some(r),
            Dealing::ByKey(field) => self.deal_by_key(field, r),
            Dealing::GroupsInTurn => {
                self.held
                    .hold_two((self.turn, Msg::Item(r)), (self.turn, Msg::Mark));
                self.turn = next_place(self.places, self.turn);
            }
            Dealing::GroupsOnDemand => self.free = Some(r),
        }
    }

    // The record goes to the place of its key. It stands apart: a look at a field needs the record in memory, and a record that is
    // dealt in another way passes that by.
    #[inline(never)]
    fn deal_by_key(&mut self, field: u32, r: Record)
        requires held { self.old.held ≡ [] }
        requires turn { self.old.turn < self.old.places }
        ensures { self.new ≡ deals_one (Dealing.ByKey field) self.old r }
    {
        let place = place_of(&r, field, self.places);
        self.held.hold((place, Msg::Item(r)));
    }

    // The in has ended, and its last message is told on every out. Where memory was short Abort was told before.
    fn close(&mut self, end: End)
        ensures { self.new ≡ deal_ends self.old end }
    {
        self.held = match end {
            End::Eos => Held::on_all(self.outs(), Last::Eos),
            End::Abort => Held::on_all(self.outs(), Last::Abort),
            End::Memory => Held::nothing(),
        };
        self.live = false;
        self.end = end;
    }

    /// What follows a record that went to this place: the Mark of its group, and the number of the place.
    pub(super) fn hold_behind(&mut self, place: u32)
        ensures { self.new ≡ record self.old {
          held = behind self.old.way self.old.places place;
        } }
    {
        self.held = match self.way {
            Dealing::InTurn | Dealing::OnDemand | Dealing::ByKey(_) => Held::nothing(),
            Dealing::GroupsInTurn => Held::one((place, Msg::Mark)),
            Dealing::GroupsOnDemand => Held::two(
                (place, Msg::Mark),
                (self.places, Msg::Pick(place)),
            ),
        };
    }

    /// A put was refused memory: all that is held is dropped, and Abort is told on every out.
    pub(super) fn cut_off(&mut self)
        ensures { self.new ≡ record self.old {
          free = None;
          held = on_all (deal_outs self.old.way self.old.places) (AbortMsg ∷ []);
          end = End.Memory;
        } }
    {
        self.free = None;
        self.held = Held::on_all(self.outs(), Last::Abort);
        self.end = End::Memory;
    }

    // How many outs it has.
    fn outs(&self) -> u32
        ensures { result ≡ deal_outs self.now.way self.now.places }
    {
        match self.way {
            Dealing::GroupsOnDemand => self.places + 1,
            _ => self.places,
        }
    }
}

// The place after this one, round and round.
fn next_place(places: u32, place: u32) -> u32
    requires { place < places }
    ensures { result ≡ next_place places place }
{
    if place + 1 == places { 0 } else { place + 1 }
}

// The place of what a field holds, and the first where it isn't there.
fn place_of(r: &Record, field: u32, places: u32) -> u32
    requires { 1 ≤ places }
    ensures { result ≡ place_of (field_at field r.now) places }
{
    match r.field(field as usize) {
        None => 0,
        Some(bytes) => key_place(bytes, places),
    }
}
