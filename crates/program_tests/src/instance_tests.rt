//! What is a program, which instances fit a rule, and copies: each call once on values with every form of
//! statement, test and expression.

use program_examples::{instance, program, rule};
use std::alloc::Global;
use std::test::Fail;
use toy_imp::{Block, Rule, Stmt};

const EVERY_FORM: &str = "\
if 0 < 1 { for i = 0 to 9 { let x = 5 { while not 0 < 9 and 1 <= 9 or x == 0 { skip; } } } } else { } \
a[4] := (2 + 1 - 1) * 3; assert x == 0;";

fn is_copied_program(alloc: Global, block: &Block) -> Option<bool> {
    let copy = block.copy(alloc).ok()?;
    Some(copy.is_program())
}

// Puts `skip` or a parameter behind a program.
fn push_last(block: &mut Block, is_open: bool) -> Option<()> {
    let last = if is_open { Stmt::par(0) } else { Stmt::skip() };
    block.push(last).ok()
}

// Whether a copy of a program with that behind it is a program.
fn is_program_behind(alloc: Global, block: Option<Block>, is_open: bool) -> Option<bool> {
    let mut block = block?;
    push_last(&mut block, is_open)?;
    is_copied_program(alloc, &block)
}

#[test]
fn programs_hold_no_parameter(rt: HostRuntime) -> Result<(), Fail> {
    let closed = is_program_behind(rt.alloc(), program(rt.alloc(), EVERY_FORM), false);
    assert_eq!(rt; closed, Some(true));
    let open = is_program_behind(rt.alloc(), program(rt.alloc(), EVERY_FORM), true);
    assert_eq!(rt; open, Some(false));
    Ok(())
}

const RULE: &str = "\
expr E; test B; name X; stmt S T; given positive E; given commutes S T; cuts 1 2, 2 1; \
left { while B { S; } T; X := E; } right { S; T; }";

fn fits_copy(alloc: Global, rule: &Rule, texts: &[&str]) -> Option<bool> {
    let copy = rule.copy(alloc).ok()?;
    let by = instance(alloc, rule.params.as_slice(), texts)?;
    Some(by.fits(&copy))
}

// Whether an instance of these texts fits a copy of the rule.
fn fits(alloc: Global, texts: &[&str]) -> Option<bool> {
    let rule = rule(alloc, RULE)?;
    fits_copy(alloc, &rule, texts)
}

#[test]
fn instances_fit(rt: HostRuntime) -> Result<(), Fail> {
    let all = fits(rt.alloc(), &["7", "1 < 2", "x", "", "x := 1;"]);
    assert_eq!(rt; all, Some(true));
    let short = fits(rt.alloc(), &["7", "1 < 2", "x", ""]);
    assert_eq!(rt; short, Some(false));
    Ok(())
}

// Whether a rule is well formed, and its first fault.
fn judged(rule: Option<Rule>) -> Option<(bool, Option<u8>)> {
    let rule = rule?;
    Some((rule.well_formed(), rule.first_fault()))
}

fn without_last(rule: Option<Rule>) -> Option<Rule> {
    let mut rule = rule?;
    rule.params.pop()?;
    Some(rule)
}

#[test]
fn rules_are_judged(rt: HostRuntime) -> Result<(), Fail> {
    assert_eq!(rt; judged(rule(rt.alloc(), RULE)), Some((true, None)));
    let rule = without_last(rule(rt.alloc(), RULE));
    assert_eq!(rt; judged(rule), Some((false, Some(2))));
    Ok(())
}
