// Work that is done in a thread of its own.
ghost use Rattle.std.specs.Prelude.{◌≡◌, ℕ};

/// A piece of work that is run once, as a whole.
pub trait Job: Drop {
    /// What a run makes of the job, said of it before and after.
    ghost done: { Self → Self → Type 0 };

    /// How much the job has handled.
    ghost amount: { Self → ℕ };

    /// Does the whole work.
    fn run(&mut self)
        ensures { done self.old self.new };

    /// How much the job has handled.
    fn work(&self) -> u64
        ensures { result ≡ amount self.now };
}
