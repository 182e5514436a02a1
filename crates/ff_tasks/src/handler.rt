// What answers tasks.
use ff_rec::NoMemory;

/// What answers tasks, in a thread of its own. An answer is a function of the task and of what the
/// handler was made with.
pub trait Handler<T, A>: Drop {
    ghost use Rattle.std.specs.Prelude.{◌≡◌, IfOk};

    /// What it answers. No answer changes this.
    ghost answers: { Self → T → A };

    /// The answer to a task.
    fn answer(&mut self, t: T) -> Result<A, NoMemory>
        ensures answer { IfOk result (λ a. a ≡ answers self.old t) }
        ensures same { answers self.new ≡ answers self.old };
}
