//! The titles of the sections that were read, so that a title is looked up in the time that it takes to
//! hash it. `specs/Seen.antt` says what was seen of a title, and what a section adds.

ghost use Rattle.std.specs.Prelude.{◌≡◌, [], IfOk, OnOk};
ghost use Rattle.pec_top.specs.Seen.{titles_in, is_among, with_title, chain_seen_with};

use crate::content::{Content, is_chain_rule};
use crate::no_memory::NoMemory;
use indexmap::IndexSet;
use std::alloc::Global;

/// The titles that were seen so far.
#[derive(Drop)]
pub struct Titles<'a> {
    pub rules: IndexSet<&'a [u8]>,
    pub programs: IndexSet<&'a [u8]>,
    /// Those of rules of method chain.
    pub chain_rules: IndexSet<&'a [u8]>,
    /// Those of `chain` sections.
    pub chains: IndexSet<&'a [u8]>,
}

impl<'a> Titles<'a> {
    /// No title was seen.
    pub fn new(alloc: Global) -> Titles<'a>
        ensures rules { titles_in result.rules.keys ≡ [] }
        ensures programs { titles_in result.programs.keys ≡ [] }
        ensures chain_rules { titles_in result.chain_rules.keys ≡ [] }
        ensures chains { titles_in result.chains.keys ≡ [] }
    {
        Titles {
            rules: IndexSet::new(alloc),
            programs: IndexSet::new(alloc),
            chain_rules: IndexSet::new(alloc),
            chains: IndexSet::new(alloc),
        }
    }
}

/// Adds a title to those that were seen, and says whether it was among them.
pub fn is_repeated<'a>(seen: &mut IndexSet<&'a [u8]>, title: &'a [u8]) -> Result<bool, NoMemory>
    ensures repeated { IfOk result (λ repeated. repeated ≡ is_among title.now seen.old.keys) }
    ensures seen { IfOk result
        (λ repeated. titles_in seen.new.keys ≡ with_title (titles_in seen.old.keys) title.now) }
{
    let new = seen.insert(title)?;
    Ok(!new)
}

/// Adds the title of a section to those of rules of method chain, where it holds one.
pub fn see_chain_rule<'a>(
    seen: &mut IndexSet<&'a [u8]>,
    title: &'a [u8],
    found: &Content,
) -> Result<(), NoMemory>
    ensures { OnOk result
        (titles_in seen.new.keys ≡ chain_seen_with (titles_in seen.old.keys) title.now found.now) }
{
    if is_chain_rule(found) {
        is_repeated(seen, title)?;
    }
    Ok(())
}

/// Whether a title is among those that were seen.
pub fn is_seen(seen: &IndexSet<&[u8]>, title: &[u8]) -> bool
    ensures { result ≡ is_among title.now seen.now.keys }
{
    seen.contains(title)
}
