//! Whether each certificate of an input is one of its rule. `specs/Checks.antt` says when it is. The rule is looked up from the
//! certificate backwards, so that one which stands right behind its rule finds it at once.

ghost use Rattle.std.specs.Prelude.{◌≡◌, ◌↔◌, ◌++◌, ◌∷◌, [], true, All, IfOk, OnOk, IsTrue};
ghost use Rattle.std.specs.Option.{option_map};
ghost use Rattle.toy_imp.specs.Faults.{is_simulate};
ghost use Rattle.pec_top.specs.Checks.{titled_rule, IsProvedBy, IsValidBehind, ItemChecks, AreChecks};
ghost use Rattle.pec_top.specs.FaultlessItems.{IsFaultless, IsFaultlessRule};

use crate::content::{Item, TitledCertificate};
use crate::no_memory::NoMemory;
use cert_checker::Certificate;
use sqlite_items::Items;
use std::alloc::Global;
use toy_imp::{Method, Rule};

/// Whether a certificate is one of its rule, by the title of its section.
#[derive(Drop)]
pub struct Check {
    pub title: Items<u8>,
    pub is_valid: bool,
}

/// The checks of the certificates among the items, in order.
#[tactic(auto, using(crate::proofs::Checking::turn_checks))]
pub fn checks(alloc: Global, items: &[Item]) -> Result<Items<Check>, NoMemory>
    requires { All IsFaultless items.now }
    ensures { IfOk result (AreChecks [] items.now) }
{
    let mut all = Items::new(alloc);
    for i in 0..items.len() {
        let own = item_checks(alloc, &items[..i], &items[i])?;
        all.append(own)?;
    }
    Ok(all)
}

/// The check of an item that is a certificate, behind these.
fn item_checks(alloc: Global, before: &[Item], item: &Item) -> Result<Items<Check>, NoMemory>
    requires { All IsFaultless before.now }
    ensures { IfOk result (ItemChecks before.now item.now) }
{
    let mut own = Items::new(alloc);
    if let Item::Certificate(c) = item {
        let title = Items::from_slice(alloc, c.title.as_slice())?;
        let is_valid = is_valid_behind(alloc, before, c)?;
        own.push(Check { title, is_valid })?;
    }
    Ok(own)
}

/// Whether a certificate is one of the rule of its title among these items.
#[tactic(auto, using(crate::proofs::Checking::titled_faultless, crate::proofs::Checking::valid_found, crate::proofs::Checking::valid_none))]
fn is_valid_behind(alloc: Global, before: &[Item], c: &TitledCertificate) -> Result<bool, NoMemory>
    requires { All IsFaultless before.now }
    ensures { IfOk result (λ yes. IsTrue yes ↔ IsValidBehind before.now c.now) }
{
    match titled_rule(before, c.title.as_slice()) {
        Some(rule) => is_certificate(alloc, rule, &c.certificate),
        None => Ok(false),
    }
}

/// Whether it is a certificate of this rule, which has a method that certificates are for.
#[tactic(auto, using(crate::proofs::Checking::faultless_is))]
fn is_certificate(alloc: Global, rule: &Rule, c: &Certificate) -> Result<bool, NoMemory>
    requires { IsFaultlessRule rule.now }
    ensures { IfOk result (λ yes. IsTrue yes ↔ IsProvedBy rule.now c.now) }
{
    if is_simulate(rule.method) {
        Ok(cert_checker::check(alloc, rule, c)?)
    } else {
        Ok(false)
    }
}

fn is_simulate(method: Method) -> bool
    ensures { result ≡ is_simulate method }
{
    matches!(method, Method::Simulate)
}

/// The rule that an item is, where it is one with this title.
fn own_rule<'a>(item: &'a Item, title: &[u8]) -> Option<&'a Rule>
    ensures { option_map (λ rule. rule.now) result ≡ titled_rule title.now (item.now ∷ []) }
{
    match item {
        Item::Rule(rule) => {
            if rule.title.as_slice() == title {
                Some(rule)
            } else {
                None
            }
        }
        Item::Program(_) | Item::Certificate(_) => None,
    }
}

/// The last rule with this title.
#[tactic(auto, using(crate::proofs::Checking::all_behind, crate::proofs::Checking::found_at, crate::proofs::Checking::not_at))]
fn titled_rule<'a>(items: &'a [Item], title: &[u8]) -> Option<&'a Rule>
    ensures { option_map (λ rule. rule.now) result ≡ titled_rule title.now items.now }
{
    let mut n = items.len();
    while n > 0 {
        n -= 1;
        match own_rule(&items[n], title) {
            Some(rule) => return Some(rule),
            None => {}
        }
    }
    None
}
