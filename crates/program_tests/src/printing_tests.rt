//! A program and a rule, read and printed, each call once. Other texts are printed by `./pec print`.

ghost use Rattle.std.specs.Prelude.{◌≡◌, true};
ghost use Rattle.pec_text.specs.Id.{is_id};

use pec_text::{Section, SectionKind};
use program_examples::section;
use program_reader::read_program;
use rule_printer::{print_program, print_rule};
use rule_reader::read_rule;
use std::alloc::Global;
use std::test::Fail;

/// The canonical text of the program that a section's body spells.
fn printed_program(alloc: Global, section: &Section) -> Option<Vec<u8>>
    requires { is_id section.now.title ≡ true }
{
    let program = read_program(alloc, section).ok()?;
    print_program(alloc, section.title.as_slice(), &program).ok()
}

/// The canonical text of the rule that a section's body spells.
fn printed_rule(alloc: Global, section: &Section) -> Option<Vec<u8>>
    requires { is_id section.now.title ≡ true }
{
    let rule = read_rule(alloc, section).ok()?;
    print_rule(alloc, &rule).ok()
}

#[test]
fn a_program_is_printed(rt: HostRuntime) -> Result<(), Fail> {
    let alloc = rt.alloc();
    let section = section(alloc, SectionKind::Program, b"x:=1;assert[x<2];")?;
    let text = printed_program(alloc, &section).expect(&rt, "a program");
    let wanted = b"program t\nx := 1;\nassert x < 2;\nend\n".as_slice();
    assert_eq!(rt; text.as_slice() == wanted, true);
    Ok(())
}

#[test]
fn a_rule_is_printed(rt: HostRuntime) -> Result<(), Fail> {
    let alloc = rt.alloc();
    let section = section(
        alloc,
        SectionKind::Rule,
        b"stmt S;given quiet S;left{S;skip;}right{S;}",
    )?;
    let text = printed_rule(alloc, &section).expect(&rt, "a rule");
    let wanted =
        b"rule t\nstmt S;\ngiven quiet S;\nleft {\n  S;\n  skip;\n}\nright {\n  S;\n}\nend\n".as_slice();
    assert_eq!(rt; text.as_slice() == wanted, true);
    Ok(())
}
