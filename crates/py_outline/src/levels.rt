ghost use Rattle.std.specs.Prelude.{◌≡◌, ◌≤◌, ◌<◌, ◌^◌, [], ◌∷◌, OnOk, OnErr};
ghost use Rattle.spec_grammar.specs.Load.{load_of, heavier, anew, outer, MAX_LOAD};

use crate::stack::Stack;
use std::alloc::Global;
use std::marker::Model;
use xh_outside::NoMemory;

/// The counts of the levels at a word, the innermost first.
#[derive(Drop)]
pub(crate) struct Levels {
    counts: Stack<usize>,
    /// The sum of the counts.
    total: usize,
}

impl Model for Levels {
    ghost use Rattle.std.specs.Prelude.{◌≡◌, ℕ, List, sum};

    ghost Value = { List ℕ };

    ghost view = { λ s. s.counts };

    ghost invariant = { λ s. s.total ≡ sum s.counts };
}

impl Levels {
    /// No level. It takes no memory yet.
    pub fn new(alloc: Global) -> Self
        ensures { result ≡ [] }
    {
        Levels {
            counts: Stack::new(alloc),
            total: 0,
        }
    }

    /// The load at the word.
    pub fn load(&self) -> usize
        requires { load_of self.now < 2 ^ 64 }
        ensures { result ≡ load_of self.now }
    {
        self.total + self.counts.len().saturating_sub(1)
    }

    /// One more level, the innermost. Where there is no memory for it, the levels stay as they were.
    pub fn open(&mut self) -> Result<(), NoMemory>
        requires { load_of self.old ≤ MAX_LOAD }
        ensures ok { OnOk result (self.new ≡ 0 ∷ self.old) }
        ensures err { OnErr result (self.new ≡ self.old) }
    {
        self.counts.push(0)?;
        Ok(())
    }

    /// The innermost level ends, where there is one.
    pub fn close(&mut self)
        ensures { self.new ≡ outer self.old }
    {
        self.begin_anew();
        self.counts.pop();
    }

    /// The innermost level counts from 0 again.
    pub fn begin_anew(&mut self)
        ensures { self.new ≡ anew self.old }
    {
        if let Some(count) = self.counts.first() {
            self.total -= count;
            self.counts.replace_first(0);
        }
    }

    /// The innermost level counts one more.
    pub fn add(&mut self)
        requires { load_of self.old ≤ MAX_LOAD }
        ensures { self.new ≡ heavier self.old }
    {
        if let Some(count) = self.counts.first() {
            self.total += 1;
            self.counts.replace_first(count + 1);
        }
    }
}
