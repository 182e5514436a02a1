// Where a network stands in another.
ghost use Rattle.std.specs.Prelude.{◌≡◌};
ghost use Rattle.ff_net.specs.Places.{whole, as_role, farm_worker, part_role, past};
ghost use Rattle.ff_net.specs.Tree.{tree_of};

use crate::forms::is_unordered;
use crate::{Net, Route};

/// As what it stands there.
#[derive(Clone, Copy)]
pub(crate) enum Role {
    /// The whole network.
    Whole,
    /// A part of the pipe that is the whole network.
    TopPart,
    /// A part of another pipe.
    PipePart,
    CombPart,
    FarmWorker,
    OFarmWorker,
    LeftSet,
    /// With the route before it.
    RightSet(Route),
    WrapWorker,
}

/// What stands above a network, and before it.
#[derive(Clone, Copy)]
pub(crate) struct Spot {
    pub(crate) role: Role,
    /// Inside a farm's worker.
    pub(crate) in_farm: bool,
    /// Behind an unordered part of a pipe.
    pub(crate) behind: bool,
}

impl Role {
    /// As what the parts of a pipe stand there, of a pipe that stands as this.
    pub(crate) fn of_part(self) -> Role
        ensures { result ≡ part_role self }
    {
        match self {
            Role::Whole => Role::TopPart,
            _ => Role::PipePart,
        }
    }
}

impl Spot {
    /// That of the whole network.
    pub(crate) fn whole() -> Spot
        ensures { result ≡ whole }
    {
        Spot {
            role: Role::Whole,
            in_farm: false,
            behind: false,
        }
    }

    /// That of a child which stands there as this.
    pub(crate) fn child(self, role: Role) -> Spot
        ensures { result ≡ as_role role self }
    {
        Spot { role, ..self }
    }

    /// That of a farm's worker.
    pub(crate) fn farm_worker(self) -> Spot
        ensures { result ≡ farm_worker self }
    {
        Spot {
            role: Role::FarmWorker,
            in_farm: true,
            ..self
        }
    }

    /// That of the next part of a pipe.
    pub(crate) fn past<N>(self, part: &Net<N>) -> Spot
        ensures { result ≡ past (tree_of part.now) self }
    {
        Spot {
            behind: self.behind || is_unordered(part),
            ..self
        }
    }
}
