// The four values of a part.
ghost use Rattle.std.specs.Prelude.{◌≡◌, ◌<◌, [], ◌∷◌};
ghost use Rattle.ff_dc.specs.Fours.{IsFour, IsWithin, at, clip};

use std::marker::Model;

/// Where values stay that would pass it, and on the other side at its negative.
const HIGHEST: i128 = 1 << 90;

/// Four numbers, each from -2^90 to 2^90. What each is, the rule says.
#[derive(Clone, Copy, Debug, Drop)]
pub struct Four {
    a: i128,
    b: i128,
    c: i128,
    d: i128,
}

impl Model for Four {
    ghost use Rattle.std.specs.Prelude.{List, [], ◌∷◌, ℤ};
    ghost use Rattle.ff_dc.specs.Fours.{IsWithin, at};

    ghost Value = { List ℤ };

    ghost view = { λ f. f.a ∷ f.b ∷ f.c ∷ f.d ∷ [] };

    ghost invariant = { λ f. IsWithin f.a × IsWithin f.b × IsWithin f.c × IsWithin f.d };

    ghost inverse = { λ v. record { a = at 0 v; b = at 1 v; c = at 2 v; d = at 3 v } };
}

impl Four {
    /// These four.
    pub fn new(a: i128, b: i128, c: i128, d: i128) -> Four
        requires a { IsWithin a }
        requires b { IsWithin b }
        requires c { IsWithin c }
        requires d { IsWithin d }
        ensures { result ≡ a ∷ b ∷ c ∷ d ∷ [] }
    {
        Four { a, b, c, d }
    }

    /// Value `k`, from 0.
    pub fn get(&self, k: usize) -> i128
        requires { k < 4 }
        ensures value { result ≡ at k self.now }
        ensures within { IsWithin result }
    {
        match k {
            0 => self.a,
            1 => self.b,
            2 => self.c,
            _ => self.d,
        }
    }
}

/// What a `Four` is, said of its list.
pub(crate) fn fours_are_within(four: &Four)
    ensures { IsFour four.now }
{
    let _a = four.a;
}

/// The number, or the end that it passes.
pub(crate) fn clipped(x: i128) -> i128
    ensures value { result ≡ clip x }
    ensures within { IsWithin result }
{
    x.min(HIGHEST).max(-HIGHEST)
}
