// Where a part stands in its division.
ghost use Rattle.std.specs.Prelude.{◌≡◌};
ghost use Rattle.ff_dc_tasks.specs.Paths.{number_in, path_in};
ghost use Rattle.ff_dc_tasks.specs.Pairs.{task_of};

use crate::DcTask;
use ff_dc::Four;

/// One more than the greatest number of a part.
const NUMBERS: u64 = 1 << 32;

/// The number of a part, and the path to it: 1 is that of the whole, and the paths to the two parts
/// of a part are twice its own, and one more.
#[derive(Clone, Copy, Debug, Drop)]
pub(crate) struct Place {
    pub path: u32,
    pub number: u32,
}

impl Place {
    /// The number by which the task of this part is given. It tells the place, so that of a task
    /// that is out nothing has to be kept.
    pub(crate) fn id(self) -> u64
        ensures number { number_in result ≡ self.number }
        ensures path { path_in result ≡ self.path }
    {
        self.path as u64 * NUMBERS + self.number as u64
    }

    /// The place of the part whose task was given by this number.
    pub(crate) fn of(id: u64) -> Place
        ensures number { result.number ≡ number_in id }
        ensures path { result.path ≡ path_in id }
    {
        Place {
            path: (id / NUMBERS) as u32,
            number: (id % NUMBERS) as u32,
        }
    }
}

/// A part with the values of its two parts.
#[derive(Clone, Copy, Debug, Drop)]
pub(crate) struct Pair {
    pub place: Place,
    pub left: Four,
    pub right: Four,
}

impl Pair {
    /// The task of this part.
    pub(crate) fn task(self) -> DcTask
        ensures { result ≡ task_of self }
    {
        DcTask::Combine {
            number: self.place.number,
            left: self.left,
            right: self.right,
        }
    }
}
