// What answers the tasks of a program.
use crate::MdfTask;
use ff_mdf::{MdfAnswer, apply};
use ff_rec::NoMemory;
use ff_tasks::Handler;

/// Does the operation of a task on its values.
#[derive(Clone, Copy, Debug, PartialEq, Eq)]
pub struct MdfHandler;

impl Handler<MdfTask, MdfAnswer> for MdfHandler {
    ghost use Rattle.ff_mdf_tasks.specs.Tasks.{answer_of};

    ghost answers = { λ _ t. answer_of t };

    fn answer(&mut self, t: MdfTask) -> Result<MdfAnswer, NoMemory> {
        Ok(apply(t.op, t.a, t.b, t.c))
    }
}
