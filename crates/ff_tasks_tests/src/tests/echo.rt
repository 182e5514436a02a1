// A handler for tests.
ghost use Rattle.std.specs.Prelude.{◌≡◌, length, IfOk};

use ff_rec::NoMemory;
use ff_tasks::Handler;
use std::alloc::Global;
use std::sync::Arc;

/// Answers so many tasks with themselves, and is refused memory then.
#[derive(Drop)]
pub struct Echo {
    left: u64,
    // Held by each handler that there is, in whichever thread.
    held: Arc<u64, Global>,
}

impl Echo {
    /// So many handlers, each for so many tasks. They all hold this.
    pub fn several(
        alloc: Global,
        count: u32,
        left: u64,
        held: &Arc<u64, Global>,
    ) -> Result<Vec<Echo>, NoMemory>
        ensures { IfOk result (λ es. length es.items ≡ count) }
    {
        let mut echoes = Vec::new(alloc);
        for _ in 0..count {
            echoes.push(Echo {
                left,
                held: Arc::try_clone(held)?,
            })?;
        }
        Ok(echoes)
    }
}

impl Handler<u64, u64> for Echo {
    ghost answers = { λ _ t. t };

    fn answer(&mut self, t: u64) -> Result<u64, NoMemory> {
        if self.left == 0 {
            return Err(NoMemory);
        }
        self.left -= 1;
        Ok(t)
    }
}
