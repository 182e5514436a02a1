// The trait of all schedulers.
use ff_rec::NoMemory;

/// What says which tasks there are: some are fed in, and answers may spawn more. A task that was given is out until its
/// answer comes back. After `NoMemory` a scheduler is given up.
pub trait Scheduler<T, A>: Drop {
    ghost use Rattle.std.specs.Prelude.{◌∷◌, ◌↔◌, IsTrue, OnOk};
    ghost use Rattle.ff_loop.specs.Events.{Offered, Back, IsOut, IsIdle};
    ghost use Rattle.ff_loop.specs.Scheduling.{Scheduling, IsScheduling, Goes, Nexts, made_by};

    /// What it does, by what is seen of it.
    ghost does: { Scheduling T A Self };

    /// A task is fed in.
    fn offer(&mut self, t: T) -> Result<(), NoMemory>
        requires { does.IsRight self.old }
        ensures { OnOk result (Goes does self.old self.new (Offered t ∷ does.events self.old)) };

    /// A ready task, with a number that no earlier one had. `None` comes exactly where no task is ready.
    fn next(&mut self) -> Option<(u64, T)>
        requires { does.IsRight self.old }
        ensures { Nexts does self.old result self.new };

    /// The answer to the task of this number, which is out.
    fn back(&mut self, id: u64, a: A) -> Result<(), NoMemory>
        requires right { does.IsRight self.old }
        requires out { IsOut id (does.events self.old) }
        ensures { OnOk result (Goes does self.old self.new (Back id a ∷ does.events self.old)) };

    /// Whether no task is ready and none is out.
    fn idle(&self) -> bool
        requires { does.IsRight self.now }
        ensures { IsTrue result ↔ IsIdle (made_by does self.now) (does.events self.now) };

    /// What holds of all that it holds.
    ghost sound: { IsScheduling does };
}
