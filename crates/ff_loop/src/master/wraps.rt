// A master over the tasks of a wrap.
ghost use Rattle.std.specs.Prelude.{◌↔◌, IsTrue};
ghost use Rattle.ff_loop.specs.Masters.{IsKept};
ghost use Rattle.ff_loop.specs.Worklists.{work_does, IsOverLimit, TakesHeld};

use super::Master;
use crate::Worklist;
use ff_node::Sends;
use ff_rec::Record;

impl Master<Record, Sends, Worklist> {
    /// Whether there are more tasks than the limit allows.
    pub fn over(&self) -> bool
        requires { IsKept work_does self.now }
        ensures { IsTrue result ↔ IsOverLimit self.now.scheduler }
    {
        self.scheduler.over()
    }

    /// The first result that is held, which is taken out.
    pub fn take_result(&mut self) -> Option<Record>
        requires { IsKept work_does self.old }
        ensures result { TakesHeld self.old result self.new }
        ensures kept { IsKept work_does self.new }
    {
        self.scheduler.take_result()
    }
}
