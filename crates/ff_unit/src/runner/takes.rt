// What a node at work does with the messages that it takes.
ghost use Rattle.std.specs.Prelude.{◌≡◌, ◌⊎◌, [], ◌∷◌, None, Some};
ghost use Rattle.ff_rec.specs.declared.msg.Msg.TheVariants.{Abort as AbortMsg};
ghost use Rattle.ff_unit.specs.StageParts.{given_up};
ghost use Rattle.ff_unit.specs.StageSteps.{GivesUp, behind_of, works, closes, LiveTakes, ShutTakes, CutTakes, StageTakes};

use super::working::Working;
use crate::Mode;
use ff_node::{Next, Node, Sends, node_end, node_step};
use ff_port::End;
use ff_rec::{Msg, Record};

impl<N: Node> Working<N> {
    /// Takes a message, while nothing is held.
    #[inline(always)]
    pub(super) fn receive(&mut self, m: Msg<Record>, marks: bool)
        requires held { self.old.held ≡ [] }
        requires fin { self.old.fin ≡ None }
        ensures { StageTakes N.does (behind_of marks) self.old.mode self.old m self.new }
    {
        match self.mode {
            Mode::Live => self.receive_live(m, marks),
            Mode::Shut => self.receive_shut(m),
            Mode::Cut => self.receive_cut(m),
        }
    }

    #[inline(always)]
    fn receive_live(&mut self, m: Msg<Record>, marks: bool)
        requires held { self.old.held ≡ [] }
        requires fin { self.old.fin ≡ None }
        ensures { LiveTakes N.does (behind_of marks) self.old m self.new }
    {
        match m {
            Msg::Item(r) => self.work(r, marks),
            Msg::Mark => self.back = Some(Msg::Mark),
            Msg::Pick(_) => {}
            Msg::Eos => self.close(),
            Msg::Abort => self.cut(Some(End::Abort)),
        }
    }

    fn receive_shut(&mut self, m: Msg<Record>)
        ensures { ShutTakes self.old m self.new }
    {
        match m {
            Msg::Item(_) => {}
            Msg::Mark => {}
            Msg::Pick(_) => {}
            Msg::Eos => self.fin = Some(End::Eos),
            Msg::Abort => self.fin = Some(End::Abort),
        }
    }

    fn receive_cut(&mut self, m: Msg<Record>)
        ensures { CutTakes self.old m self.new }
    {
        match m {
            Msg::Item(_) => {}
            Msg::Mark => {}
            Msg::Pick(_) => {}
            Msg::Eos => self.fin = Some(End::Memory),
            Msg::Abort => self.fin = Some(End::Memory),
        }
    }

    // The node takes a record: behind its sends a Mark is held, where `marks` says so.
    #[inline(always)]
    fn work(&mut self, r: Record, marks: bool)
        requires held { self.old.held ≡ [] }
        requires fin { self.old.fin ≡ None }
        ensures { (self.new ≡ works N.does (behind_of marks) self.old r)
            ⊎ GivesUp N.does self.old None self.new }
    {
        let keeps = self.sends.keeps();
        match node_step(&mut self.node, r, &mut self.sends) {
            Ok(Next::GoOn) => {
                if marks {
                    self.back = Some(Msg::Mark);
                }
            }
            Ok(Next::Eos) => {
                self.back = Some(Msg::Eos);
                self.mode = Mode::Shut;
            }
            Err(_) => self.give_up(keeps, None),
        }
    }

    // The node ends with its in.
    fn close(&mut self)
        requires held { self.old.held ≡ [] }
        ensures { (self.new ≡ closes N.does self.old self.old.node [] [] (Some End.Eos))
            ⊎ GivesUp N.does self.old (Some End.Memory) self.new }
    {
        let keeps = self.sends.keeps();
        match node_end(&mut self.node, &mut self.sends) {
            Ok(()) => {
                self.back = Some(Msg::Eos);
                self.mode = Mode::Shut;
                self.fin = Some(End::Eos);
            }
            Err(_) => self.give_up(keeps, Some(End::Memory)),
        }
    }

    // The node was refused memory: nothing is known of what it sent, which is dropped.
    fn give_up(&mut self, keeps: bool, fin: Option<End>)
        ensures { self.new ≡ given_up self.old keeps fin }
    {
        self.sends = Sends::new(self.alloc, keeps);
        self.back = Some(Msg::Abort);
        self.mode = Mode::Cut;
        self.fin = fin;
    }

    // Cuts the stream off, while nothing is held.
    fn cut(&mut self, fin: Option<End>)
        requires { self.old.held ≡ [] }
        ensures { self.new ≡ record self.old { held = AbortMsg ∷ []; mode = Mode.Cut; fin = fin } }
    {
        self.back = Some(Msg::Abort);
        self.mode = Mode::Cut;
        self.fin = fin;
    }
}
