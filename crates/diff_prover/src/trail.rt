//! The walk from a variable to its parent's right variable and on, until it ends or comes round.
//! A cycle among the parents has a negative sum; `specs/Search.antt` says what a trail is.

ghost use Rattle.std.specs.Prelude.{◌≡◌, ◌<◌, ◌≤◌, [], length, replicate, All, IfOk, OnOk};
ghost use Rattle.diff_prover.specs.Row.{IsRowOver};
ghost use Rattle.diff_prover.specs.Search.{ArePlaced, IsTrail, Follows};

use crate::row::DiffRow;
use std::alloc::{AllocError, Global};

/// The variables that were visited, and the rows that led on from them.
#[derive(Drop)]
pub struct Trail {
    /// For each variable one more than its number on the trail, 0 where it was not visited.
    pub visits: Vec<usize>,
    /// The places of the parents of the visited variables, in the order of the visits.
    pub places: Vec<usize>,
}

impl Trail {
    /// Nothing is visited yet, of `count` variables.
    pub fn new(alloc: Global, count: usize) -> Result<Trail, AllocError>
        ensures visits { IfOk result (λ trail. trail.visits.items ≡ replicate count 0) }
        ensures places { IfOk result (λ trail. trail.places.items ≡ []) }
    {
        let visits = vec![in alloc; 0usize; count]?;
        let places = Vec::with_capacity(alloc, count)?;
        Ok(Trail { visits, places })
    }

    /// Forgets all visits.
    pub fn clear(&mut self)
        ensures visits { self.new.visits.items ≡ replicate (length self.old.visits.items) 0 }
        ensures places { self.new.places.items ≡ [] }
    {
        self.visits.fill(0);
        self.places.clear();
    }

    /// A walk from `start` alone.
    pub fn follow_alone(
        &mut self,
        rows: &[DiffRow],
        parents: &[Option<usize>],
        start: usize,
    ) -> Result<Option<usize>, AllocError>
        requires start { start < length parents.now }
        requires rows { All (IsRowOver (length parents.now)) rows.now }
        requires placed { ArePlaced rows.now parents.now }
        requires count { length self.old.visits.items ≡ length parents.now }
        ensures trail { OnOk result
            (IsTrail rows.now parents.now self.new.visits.items self.new.places.items) }
        ensures found { IfOk result (Follows rows.now parents.now [] self.new.places.items start) }
    {
        self.clear();
        self.follow(rows, parents, start)
    }

    /// Walks from `start` along the parents to a variable that was visited or has no parent.
    /// The answer is the number on the trail from which on its rows make a cycle.
    pub fn follow(
        &mut self,
        rows: &[DiffRow],
        parents: &[Option<usize>],
        start: usize,
    ) -> Result<Option<usize>, AllocError>
        requires start { start < length parents.now }
        requires rows { All (IsRowOver (length parents.now)) rows.now }
        requires placed { ArePlaced rows.now parents.now }
        requires trail { IsTrail rows.now parents.now self.old.visits.items self.old.places.items }
        ensures trail { OnOk result
            (IsTrail rows.now parents.now self.new.visits.items self.new.places.items) }
        ensures grows { OnOk result (length self.old.places.items ≤ length self.new.places.items) }
        ensures found { IfOk result
            (Follows rows.now parents.now self.old.places.items self.new.places.items start) }
    {
        let base = self.places.len();
        let mut at = start;
        while self.visits[at] == 0 {
            let Some(place) = parents[at] else {
                return Ok(None);
            };
            self.places.push(place)?;
            self.visits[at] = self.places.len();
            at = rows[place].right as usize;
        }
        let number = self.visits[at];
        if number > base {
            Ok(Some(number - 1))
        } else {
            Ok(None)
        }
    }
}
