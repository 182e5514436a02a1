// What the workers of a division do.
ghost use Rattle.std.specs.Prelude.{◌≡◌, length, IfOk};
ghost use Rattle.std.specs.List.{All};
ghost use Rattle.std.specs.Arc.{arc_value};
ghost use Rattle.ff_dc_tasks.specs.Tasks.{answer_of};

use crate::{DcTask, RuleFunctions};
use ff_dc::{Four, Numbers};
use ff_rec::{Kept, NoMemory};
use ff_tasks::Handler;
use std::alloc::Global;
use std::sync::Arc;

/// Answers the tasks of a division by the functions of its rule.
#[derive(Drop)]
pub struct DcHandler<F: RuleFunctions> {
    functions: F,
    // All handlers of a division share them.
    numbers: Arc<Numbers, Global>,
}

impl<F: RuleFunctions> Handler<DcTask, Four> for DcHandler<F> {
    ghost use Rattle.std.specs.Arc.{arc_value};
    ghost use Rattle.ff_dc_tasks.specs.Tasks.{answer_of};

    ghost answers = { λ h. answer_of (F.rule h.functions) (arc_value h.numbers) };

    fn answer(&mut self, t: DcTask) -> Result<Four, NoMemory> {
        match t {
            DcTask::Seq { part, .. } => Ok(self.functions.at_once(&self.numbers, part)),
            DcTask::Combine { left, right, .. } => Ok(self.functions.combine(left, right)),
        }
    }
}

/// A handler for each of so many workers. They share one copy of the numbers.
pub(crate) fn handlers_for<F: RuleFunctions + Copy>(
    alloc: Global,
    functions: F,
    numbers: &Numbers,
    workers: u32,
) -> Result<Vec<DcHandler<F>>, NoMemory>
    ensures count { IfOk result (λ hs. length hs.items ≡ workers) }
    ensures alike { IfOk result (λ hs. All (λ h.
        answer_of (F.rule h.functions) (arc_value h.numbers)
        ≡ answer_of (F.rule functions) numbers.now) hs.items) }
{
    let shared = Arc::new(alloc, numbers.copy()?)?;
    let mut handlers = Vec::new(alloc);
    for _ in 0..workers {
        handlers.push(DcHandler {
            functions,
            numbers: Arc::try_clone(&shared)?,
        })?;
    }
    Ok(handlers)
}
