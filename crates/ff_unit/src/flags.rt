// Which ins still give.
ghost use Rattle.std.specs.Prelude.{◌≡◌, ◌<◌, ◌≤◌, Bool, List, true, false, length, slice_index_or, slice_set, take};
ghost use Rattle.ff_unit.specs.Closing.{any_live, all_live, none_live};

use std::marker::Model;

/// Which of up to 65 ins still give. It takes no memory.
#[derive(Drop)]
pub struct Flags {
    flags: [bool; 65],
    count: usize,
}

impl Model for Flags {
    ghost Value = { List Bool };

    ghost view = { λ f. take f.count f.flags };

    ghost invariant = { λ f. f.count ≤ 65 };
}

impl Flags {
    /// Every one of `n` ins still gives.
    pub fn all(n: usize) -> Flags
        requires { n ≤ 65 }
        ensures { result ≡ all_live n }
    {
        Flags {
            flags: [true; 65],
            count: n,
        }
    }

    /// How many ins there are.
    pub fn len(&self) -> usize
        ensures count { result ≡ length self.now }
        ensures few { result ≤ 65 }
    {
        self.count
    }

    /// Whether some in still gives.
    pub fn any(&self) -> bool
        ensures { result ≡ any_live self.now }
    {
        for k in 0..self.count {
            if self.flags[k] {
                return true;
            }
        }
        false
    }

    /// Whether in `k` still gives.
    pub fn is_live(&self, k: usize) -> bool
        ensures { result ≡ slice_index_or self.now k false }
    {
        k < self.count && self.flags[k]
    }

    /// In `k` gives again.
    pub fn open(&mut self, k: usize)
        requires { k < length self.old }
        ensures { self.new ≡ slice_set self.old k true }
    {
        self.flags[k] = true;
    }

    /// Every in gives again.
    pub fn open_all(&mut self)
        ensures { self.new ≡ all_live (length self.old) }
    {
        self.flags = [true; 65];
    }

    /// In `k` gives no more.
    pub fn close(&mut self, k: usize)
        requires { k < length self.old }
        ensures { self.new ≡ slice_set self.old k false }
    {
        self.flags[k] = false;
    }

    /// No in gives any more.
    pub fn close_all(&mut self)
        ensures { self.new ≡ none_live (length self.old) }
    {
        self.flags = [false; 65];
    }
}
