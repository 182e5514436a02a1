// The trait of all nodes.
ghost use Rattle.std.specs.Prelude.{◌≡◌, IfOk, OnOk};

use crate::{Class, Next, Sends};
use ff_rec::{NoMemory, Record};

/// A node of a network: it takes records one after another and sends records on.
pub trait Node: Drop {
    ghost use Rattle.std.specs.Prelude.{◌≡◌};
    ghost use Rattle.ff_node.specs.Behaviour.{Behaviour, KeepsKind};
    ghost use Rattle.ff_node.specs.Classes.{ClassLaw};
    ghost use Rattle.ff_node.specs.Next.{is_eos};
    ghost use Rattle.ff_node.specs.Sends.{add};

    /// What it does, in each of its states.
    ghost does: { Behaviour Self };

    /// What it promises.
    fn class(&self) -> Class
        ensures { result ≡ does.class self.now };

    /// A copy of it in its opening state.
    fn copy(&self) -> Result<Self, NoMemory>
        ensures { IfOk result (λ other. other ≡ does.opening self.now) };

    /// Called once, before the first record.
    fn svc_init(&mut self)
        ensures { self.new ≡ does.opening self.old };

    /// Takes a record, and appends what it sends and rejects for it. After `NoMemory` nothing is promised of the sends and
    /// the state, and the caller gives the node up.
    fn svc(&mut self, r: Record, out: &mut Sends) -> Result<Next, NoMemory>
        ensures kind { does.opening self.new ≡ does.opening self.old }
        ensures state { OnOk result (self.new ≡ does.next self.old r) }
        ensures sends { OnOk result (out.new ≡ add out.old (does.sends self.old r) (does.rejects self.old r)) }
        ensures mark { IfOk result (λ next. is_eos next ≡ does.ends self.old r) };

    /// Called once, after the last record, whether the input ended or the node did: it appends what is sent and rejected
    /// at the end.
    fn eos_notify(&mut self, out: &mut Sends) -> Result<(), NoMemory>
        ensures kind { does.opening self.new ≡ does.opening self.old }
        ensures sends { OnOk result (out.new ≡ add out.old (does.last self.old) (does.last_rejects self.old)) };

    /// Called once, after the last record. Nothing is sent.
    fn svc_end(&mut self)
        ensures { self.new ≡ does.opening self.old };

    /// What a node does is fixed when it is made.
    ghost keeps_kind: { KeepsKind does };

    /// What is promised by its class.
    ghost class_law: { (o : Self) → ClassLaw does o (does.class o) };
}
