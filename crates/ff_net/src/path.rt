// The place of a network in a network.
ghost use Rattle.std.specs.Prelude.{◌≡◌, ◌<◌, ◌≤◌, ◌∷◌, ◌++◌, [], length, slice_index};

use crate::limits::MOST_DEPTH;
use std::marker::Model;

/// The place of a network in a network: the child numbers on the way down to it, each counted from 1.
#[derive(Debug, Drop)]
pub struct Path {
    children: [usize; MOST_DEPTH],
    len: usize,
}

impl Model for Path {
    ghost use Rattle.std.specs.Prelude.{ℕ, List, take, ◌≤◌};

    ghost Value = { List ℕ };

    ghost view = { λ p. take p.len p.children };

    ghost invariant = { λ p. p.len ≤ 16 };
}

impl Path {
    /// The whole network.
    pub fn top() -> Path
        ensures { result ≡ [] }
    {
        Path {
            children: [0; MOST_DEPTH],
            len: 0,
        }
    }

    /// Goes down to a child.
    pub fn push(&mut self, child: usize)
        requires room { length self.old < 16 }
        requires counted { 1 ≤ child }
        ensures { self.new ≡ self.old ++ child ∷ [] }
    {
        self.children[self.len] = child;
        self.len += 1;
    }

    /// How far down it is.
    pub fn len(&self) -> usize
        ensures number { result ≡ length self.now }
        ensures short { length self.now ≤ 16 }
    {
        self.len
    }

    /// The child number at step `k`, counted from 0.
    pub fn child(&self, k: usize) -> usize
        requires { k < length self.now }
        ensures { result ≡ slice_index self.now k }
    {
        let children = &self.children;
        children[k]
    }

    /// A copy, which takes no memory.
    pub fn same(&self) -> Path
        ensures { result ≡ self.now }
    {
        Path {
            children: self.children,
            len: self.len,
        }
    }

    /// The place of a child.
    pub fn down(&self, child: usize) -> Path
        requires room { length self.now < 16 }
        requires counted { 1 ≤ child }
        ensures { result ≡ self.now ++ child ∷ [] }
    {
        let mut path = self.same();
        path.push(child);
        path
    }
}
