//! Whether a name or a pair stands twice in a list, by a set of those that were seen.

ghost use Rattle.std.specs.Prelude.{◌≡◌, ◌++◌, ◌∷◌, [], IfOk, not, bytes_eq, if◌then◌else◌};
ghost use Rattle.std.specs.List.{list_any};
ghost use Rattle.toy_imp.specs.Faults as spec;
ghost use Rattle.rule_faults.specs.Seen.{names_in};

use indexmap::IndexSet;
use std::alloc::Global;
use toy_imp::{NoMemory, Param};

/// Whether two parameters have one name. It takes a table of the names, and the time that it takes to
/// hash each once, as is expected. `Err` comes only where memory runs out.
#[tactic(auto, using(crate::proofs::Again::names_from_none))]
pub fn repeats_name(alloc: Global, params: &[Param]) -> Result<bool, NoMemory>
    ensures { IfOk result (λ yes. yes ≡ spec.repeats_name params.now) }
{
    let mut seen = IndexSet::new(alloc);
    for p in params {
        if !add_name(&mut seen, p.name.as_slice())? {
            return Ok(true);
        }
    }
    Ok(false)
}

/// Adds a name to those that were seen, and says whether it is new.
fn add_name<'a>(seen: &mut IndexSet<&'a [u8]>, name: &'a [u8]) -> Result<bool, NoMemory>
    ensures new { IfOk result (λ new. new ≡ not (list_any (bytes_eq name.now) (names_in seen.old.keys))) }
    ensures seen { IfOk result (λ new. names_in seen.new.keys ≡ (if new then names_in seen.old.keys ++ name.now ∷ [] else names_in seen.old.keys)) }
{
    let new = seen.insert(name)?;
    Ok(new)
}

/// Whether a pair is listed twice. It takes a table of the pairs, and the time that it takes to hash
/// each once, as is expected. `Err` comes only where memory runs out.
#[tactic(auto, using(crate::proofs::Again::pairs_from_none))]
pub fn repeats_pair(alloc: Global, pairs: &[(u32, u32)]) -> Result<bool, NoMemory>
    ensures { IfOk result (λ yes. yes ≡ spec.repeats_pair pairs.now) }
{
    let mut seen = IndexSet::new(alloc);
    for pair in pairs {
        if !seen.insert(*pair)? {
            return Ok(true);
        }
    }
    Ok(false)
}
