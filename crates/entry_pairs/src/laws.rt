//! The laws of cut points and entries, each the contract of a function that does nothing.
//! The statements are in `specs/EntryLists.antt`.

ghost use Rattle.entry_pairs.specs.EntryLists.{CutsAreEntryList};

/// What `cuts` answers is a list of entries that can be walked: the starts, the exits and others before them, each
/// once, of cut points that ascend, and within the limits.
pub fn cuts_are_entry_list()
    ensures { CutsAreEntryList }
{}
