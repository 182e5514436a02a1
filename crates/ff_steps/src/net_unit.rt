// A unit of a network, whatever it is.
ghost use Rattle.std.specs.Prelude.{◌≡◌};
ghost use Rattle.ff_steps.specs.NetUnits.{AsStage, AsDeal, AsMerge, AsOMerge, AsMaster, AsWorker, over_net};

use ff_loop::{WrapMaster, WrapWorker};
use ff_node::{Comb, Node};
use ff_order::{ODeal, OMerge};
use ff_port::{End, Ports, Step};
use ff_rec::Record;
use ff_unit::{Deal, Merge, Stage, Threaded, Unit};
use std::marker::Model;

/// A unit of a network: a stage, a deal, a merge, the deal or merge of an ordered farm, or the master or a worker of a wrap.
pub struct NetUnit<N> {
    part: Part<N>,
}

// By hand, so that a crate that lets units go proves one call, and not each part of each kind.
impl<N: Drop> Drop for NetUnit<N> {
    fn drop(self) {
        let NetUnit { part } = self;
        drop(part);
    }
}

// What it is. A leaf runs as the comb of its one node.
#[derive(Drop)]
enum Part<N> {
    Stage(Stage<Comb<N>>),
    Deal(Deal),
    ODeal(ODeal),
    Merge(Merge),
    OMerge(OMerge),
    Master(WrapMaster),
    Worker(WrapWorker<Comb<N>>),
}

impl<N> Model for NetUnit<N> {
    ghost use Rattle.ff_steps.specs.NetUnits.{NetState};
    ghost use Rattle.ff_steps.specs.PartViews.{state_of};

    ghost Value = { NetState N };

    ghost view = { λ u. state_of u.part };
}

impl<N> NetUnit<N> {
    /// A unit that is this stage.
    pub(crate) fn of_stage(stage: Stage<Comb<N>>) -> NetUnit<N>
        ensures { result ≡ AsStage stage }
    {
        NetUnit {
            part: Part::Stage(stage),
        }
    }

    /// A unit that is this deal.
    pub(crate) fn of_deal(deal: Deal) -> NetUnit<N>
        ensures { result ≡ AsDeal deal }
    {
        NetUnit {
            part: Part::Deal(deal),
        }
    }

    /// A unit that is this ordered deal.
    pub(crate) fn of_odeal(deal: ODeal) -> NetUnit<N>
        ensures { result ≡ AsDeal deal }
    {
        NetUnit {
            part: Part::ODeal(deal),
        }
    }

    /// A unit that is this merge.
    pub(crate) fn of_merge(merge: Merge) -> NetUnit<N>
        ensures { result ≡ AsMerge merge }
    {
        NetUnit {
            part: Part::Merge(merge),
        }
    }

    /// A unit that is this ordered merge.
    pub(crate) fn of_omerge(merge: OMerge) -> NetUnit<N>
        ensures { result ≡ AsOMerge merge }
    {
        NetUnit {
            part: Part::OMerge(merge),
        }
    }

    /// A unit that is this master of a wrap.
    pub(crate) fn of_master(master: WrapMaster) -> NetUnit<N>
        ensures { result ≡ AsMaster master }
    {
        NetUnit {
            part: Part::Master(master),
        }
    }

    /// A unit that is this worker of a wrap.
    pub(crate) fn of_worker(worker: WrapWorker<Comb<N>>) -> NetUnit<N>
        ensures { result ≡ AsWorker worker }
    {
        NetUnit {
            part: Part::Worker(worker),
        }
    }

    /// Whether it is the master of a wrap to which more tasks came than the limit allows.
    pub fn over(&self) -> bool
        ensures { result ≡ over_net self.now }
    {
        match &self.part {
            Part::Master(master) => master.over(),
            _ => false,
        }
    }
}

impl<N: Node> Unit for NetUnit<N> {
    ghost use Rattle.ff_steps.specs.NetUnitLaws.{IsUnit-nodes};
    ghost use Rattle.ff_steps.specs.NetUnits.{net_does};

    ghost does = { net_does N.does };

    fn step_once<P: Ports<Record>>(&mut self, ports: &mut P) -> Step {
        match &mut self.part {
            Part::Stage(stage) => stage.step_once(ports),
            Part::Deal(deal) => deal.step_once(ports),
            Part::ODeal(deal) => deal.step_once(ports),
            Part::Merge(merge) => merge.step_once(ports),
            Part::OMerge(merge) => merge.step_once(ports),
            Part::Master(master) => master.step_once(ports),
            Part::Worker(worker) => worker.step_once(ports),
        }
    }

    fn end_aborted(&mut self) {
        match &mut self.part {
            Part::Stage(stage) => stage.end_aborted(),
            Part::Deal(deal) => deal.end_aborted(),
            Part::ODeal(deal) => deal.end_aborted(),
            Part::Merge(merge) => merge.end_aborted(),
            Part::OMerge(merge) => merge.end_aborted(),
            Part::Master(master) => master.end_aborted(),
            Part::Worker(worker) => worker.end_aborted(),
        }
    }

    fn take_kept(&mut self) -> Option<Record> {
        match &mut self.part {
            Part::Stage(stage) => stage.take_kept(),
            Part::Deal(deal) => deal.take_kept(),
            Part::ODeal(deal) => deal.take_kept(),
            Part::Merge(merge) => merge.take_kept(),
            Part::OMerge(merge) => merge.take_kept(),
            Part::Master(master) => master.take_kept(),
            Part::Worker(worker) => worker.take_kept(),
        }
    }

    fn end(&self) -> Option<End> {
        match &self.part {
            Part::Stage(stage) => stage.end(),
            Part::Deal(deal) => deal.end(),
            Part::ODeal(deal) => deal.end(),
            Part::Merge(merge) => merge.end(),
            Part::OMerge(merge) => merge.end(),
            Part::Master(master) => master.end(),
            Part::Worker(worker) => worker.end(),
        }
    }

    fn rejected(&self) -> u64 {
        match &self.part {
            Part::Stage(stage) => stage.rejected(),
            Part::Deal(deal) => deal.rejected(),
            Part::ODeal(deal) => deal.rejected(),
            Part::Merge(merge) => merge.rejected(),
            Part::OMerge(merge) => merge.rejected(),
            Part::Master(master) => master.rejected(),
            Part::Worker(worker) => worker.rejected(),
        }
    }

    ghost sound = { IsUnit-nodes N.does N.keeps_kind N.class_law };
}

impl<N: Node> Threaded for NetUnit<N> {
    fn step_many<P: Ports<Record>>(&mut self, ports: &mut P) -> Step {
        match &mut self.part {
            Part::Stage(stage) => stage.step_on(ports),
            Part::Deal(deal) => deal.step_on(ports),
            Part::ODeal(deal) => deal.step_on(ports),
            Part::Merge(merge) => merge.step_on(ports),
            Part::OMerge(merge) => merge.step_on(ports),
            Part::Master(master) => master.step_on(ports),
            Part::Worker(worker) => worker.step_on(ports),
        }
    }
}
