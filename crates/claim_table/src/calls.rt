//! The four calls that threads make: take, finish, free and publish.
//! None takes memory or waits. `specs/Views.antt` says what each makes of a chair, under the rule of
//! `specs/Rule.antt`.

ghost use Rattle.std.specs.Prelude.{◌≡◌, ◌<◌, ◌≤◌, [], ◌∷◌, ◌++◌, max, IfSome, IfNone, MatchBool};
ghost use Rattle.claim_table.specs.Occurrences.{times};
ghost use Rattle.claim_table.specs.Views.{Holds, after_load, after_look, after_claim};
ghost use Rattle.claim_table.specs.Views.{after_finish, after_free, after_publish};
ghost use Rattle.claim_table.specs.Chairs.{slot_count, LookedBelow, LoadsOnce};

use crate::chair::Chair;
use crate::steps::{Claim, Finish, Free, LoadCount, Look, Publish};
use crate::table::ClaimTable;

/// The word of a slot that nobody holds and that is not done.
const FREE: u64 = 0;

/// The word of a slot that was finished.
const DONE: u64 = 1;

/// What is added to a chair's number to make the word of a slot that it holds.
const FIRST_CHAIR: u64 = 2;

impl ClaimTable {
    /// Takes the first slot that it finds free below the count of published slots, which it loads once: it
    /// found each slot before that one held or done. `None` comes only where it found each slot below the
    /// count held or done. The count is no less than any that the chair has loaded or published before.
    pub fn take(&self, chair: &mut Chair) -> Option<u32>
        requires table { chair.old.table ≡ self.now }
        ensures table { chair.new.table ≡ self.now }
        ensures loaded { LoadsOnce chair.old.view chair.new.view }
        ensures some { IfSome result
            (λ slot. chair.new.view.held ≡ chair.old.view.held ++ slot ∷ []) }
        ensures fresh { IfSome result (λ slot. times slot chair.old.view.held ≡ 0) }
        ensures held { IfSome result (Holds chair.new.view) }
        ensures seen { IfSome result (λ slot. slot < chair.new.view.seen) }
        ensures below { IfSome result (λ slot. slot < slot_count self.now) }
        ensures order { IfSome result (λ slot. LookedBelow slot chair.new.view) }
        ensures none { IfNone result (chair.new.view.held ≡ chair.old.view.held) }
        ensures looked { IfNone result (LookedBelow chair.new.view.seen chair.new.view) }
    {
        let count = self.load_count(chair);
        for slot in 0..count {
            if self.claim(chair, slot) {
                return Some(slot);
            }
        }
        None
    }

    /// Loads the count of the published slots.
    fn load_count(&self, chair: &mut Chair) -> u32
        requires table { chair.old.table ≡ self.now }
        ensures table { chair.new.table ≡ self.now }
        ensures view { chair.new.view ≡ after_load result chair.old.view }
        ensures seen { chair.old.view.seen ≤ result }
        ensures below { result ≤ slot_count self.now }
    {
        let count = self.table.shared.load::<LoadCount>(&mut chair.seat, 0);
        count as u32
    }

    /// Claims the slot by one exchange, unless a look has found it held or done.
    fn claim(&self, chair: &mut Chair, slot: u32) -> bool
        requires table { chair.old.table ≡ self.now }
        requires published { slot < chair.old.view.seen }
        ensures table { chair.new.table ≡ self.now }
        ensures view { MatchBool result
            (chair.new.view ≡ after_claim slot chair.old.view)
            (chair.new.view ≡ after_look slot chair.old.view) }
        ensures fresh { MatchBool result
            (times slot chair.old.view.held ≡ 0)
            (chair.new.view.held ≡ chair.old.view.held) }
    {
        let words = &self.table.shared;
        let word = slot as usize + 1;
        if words.load::<Look>(&mut chair.seat, word) != FREE {
            return false;
        }
        let mine = u64::from(chair.number) + FIRST_CHAIR;
        let found = words.compare_exchange::<Claim>(&mut chair.seat, word, FREE, mine);
        found == FREE
    }

    /// Finishes a slot that the chair holds. It stays finished.
    pub fn finish(&self, chair: &mut Chair, slot: u32)
        requires table { chair.old.table ≡ self.now }
        requires held { Holds chair.old.view slot }
        ensures table { chair.new.table ≡ self.now }
        ensures view { chair.new.view ≡ after_finish slot chair.old.view }
    {
        let mine = u64::from(chair.number) + FIRST_CHAIR;
        let word = slot as usize + 1;
        let found = self
            .table
            .shared
            .swap::<Finish>(&mut chair.seat, word, DONE);
        prove!(found == mine);
    }

    /// Frees a slot that the chair holds, for any chair to take.
    pub fn free(&self, chair: &mut Chair, slot: u32)
        requires table { chair.old.table ≡ self.now }
        requires held { Holds chair.old.view slot }
        ensures table { chair.new.table ≡ self.now }
        ensures view { chair.new.view ≡ after_free slot chair.old.view }
    {
        let mine = u64::from(chair.number) + FIRST_CHAIR;
        let word = slot as usize + 1;
        let found = self.table.shared.swap::<Free>(&mut chair.seat, word, FREE);
        prove!(found == mine);
    }

    /// Publishes the slots below `count`, and answers the count of published slots before. Where that was
    /// greater, it stays. `count` is at most the number of slots.
    pub fn publish(&self, chair: &mut Chair, count: u32) -> u32
        requires table { chair.old.table ≡ self.now }
        requires count { count ≤ slot_count self.now }
        ensures table { chair.new.table ≡ self.now }
        ensures view { chair.new.view ≡ after_publish (max result count) chair.old.view }
        ensures seen { chair.old.view.seen ≤ result }
        ensures below { result ≤ slot_count self.now }
    {
        let words = &self.table.shared;
        let before = words.fetch_max::<Publish>(&mut chair.seat, 0, u64::from(count));
        before as u32
    }
}
