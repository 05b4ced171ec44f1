//! The numbers that were replaced already, each with the number that stands in its place.
//! `specs/Replaced.antt` says what is found there.

ghost use Rattle.std.specs.Prelude.{◌≡◌, [], OnOk};
ghost use Rattle.pool_goals.specs.Replaced.{made_at, Makes};

use indexmap::IndexMap;
use std::alloc::Global;
use std::marker::Model;
use toy_imp::NoMemory;

/// Numbers with those in their place. A contract sees a list of pairs.
#[derive(Drop)]
pub struct Memo {
    made: IndexMap<u32, u32>,
}

impl Model for Memo {
    ghost use Rattle.std.specs.Prelude.{ℕ, List};
    ghost use Rattle.std.specs.Coded.{coded_list, coded×, coded_ℕ};

    ghost Value = { List (ℕ × ℕ) };

    ghost coded = { coded_list (coded× coded_ℕ coded_ℕ) };

    ghost view = { λ memo. memo.made.entries };
}

impl Memo {
    /// Nothing yet.
    pub fn new(alloc: Global) -> Memo
        ensures { result ≡ [] }
    {
        Memo {
            made: IndexMap::new(alloc),
        }
    }

    /// The number in place of `n`.
    pub fn get(&self, n: u32) -> Option<u32>
        ensures { result ≡ made_at self.now n }
    {
        match self.made.get(&n) {
            Some(m) => Some(*m),
            None => None,
        }
    }

    /// Keeps that `m` stands in place of `n`.
    pub fn keep(&mut self, n: u32, m: u32) -> Result<(), NoMemory>
        ensures { OnOk result (Makes self.old self.new n m) }
    {
        self.made.insert(n, m)?;
        Ok(())
    }
}
