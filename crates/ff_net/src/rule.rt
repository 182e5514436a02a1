// The rules of networks by their names.
ghost use Rattle.std.specs.Prelude.{◌≡◌};
ghost use Rattle.ff_net.specs.Rules.{number_of};

/// A rule that a network has to keep, each by what it speaks of.
#[derive(Clone, Copy)]
pub(crate) enum Rule {
    Depth,
    Parts,
    Workers,
    Units,
    Edges,
    CombParts,
    FarmLeaves,
    OFarmWorkers,
    Sets,
    Order,
    Keys,
    WrapWorkers,
    WrapPlaces,
    FieldNumbers,
}

impl Rule {
    /// The number by which it is named to users.
    pub(crate) fn number(self) -> u8
        ensures { result ≡ number_of self }
    {
        match self {
            Rule::Depth => 1,
            Rule::Parts => 2,
            Rule::Workers => 3,
            Rule::Units => 4,
            Rule::Edges => 5,
            Rule::CombParts => 6,
            Rule::FarmLeaves => 7,
            Rule::OFarmWorkers => 8,
            Rule::Sets => 9,
            Rule::Order => 10,
            Rule::Keys => 11,
            Rule::WrapWorkers => 12,
            Rule::WrapPlaces => 13,
            Rule::FieldNumbers => 14,
        }
    }
}

/// All rules but the first, the lowest first.
pub(crate) const LATER_RULES: [Rule; 13] = [
    Rule::Parts,
    Rule::Workers,
    Rule::Units,
    Rule::Edges,
    Rule::CombParts,
    Rule::FarmLeaves,
    Rule::OFarmWorkers,
    Rule::Sets,
    Rule::Order,
    Rule::Keys,
    Rule::WrapWorkers,
    Rule::WrapPlaces,
    Rule::FieldNumbers,
];
