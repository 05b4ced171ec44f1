//! What one section holds, behind the earlier ones. `specs/Content.antt` says what that is, and in which
//! order the reasons come for which a section is refused.

ghost use Rattle.std.specs.Prelude.{◌≡◌, Some, IfOk};
ghost use Rattle.pec_top.specs.Content.{is_prove, is_built, unread, rule_content, resting_content, certificate_content, chain_content};
ghost use Rattle.pec_top.specs.Content.{rule_read_content, program_read_content, certificate_read_content};
ghost use Rattle.pec_top.specs.Content.{RuleHolds, ProgramHolds, CertificateHolds, CertSectionHolds};
ghost use Rattle.pec_top.specs.LaterFormats.{is_later_format};
ghost use Rattle.pec_top.specs.Seen.{is_chain_rule};
ghost use Rattle.pec_top.specs.Titles.{is_chain};

use crate::command::Command;
use crate::later_formats::is_later_format;
use crate::no_memory::NoMemory;
use crate::skip_form::is_skip_rule;
use cert_checker::Certificate;
use cert_format::read_certificate;
use pec_text::Section;
use program_reader::{ReadRule, read_program};
use rule_reader::read_rule;
use sqlite_items::Items;
use std::alloc::Global;
use term_text::Unread;
use toy_imp::{Block, Method, Rule};

/// A program with the title of its section.
#[derive(Drop)]
pub struct Program {
    pub title: Items<u8>,
    pub block: Block,
}

/// A certificate with the title of its section, which is that of its rule.
#[derive(Drop)]
pub struct TitledCertificate {
    pub title: Items<u8>,
    pub certificate: Certificate,
}

/// What a section holds that a command goes over.
#[derive(Drop)]
pub enum Item {
    Rule(Rule),
    Program(Program),
    Certificate(TitledCertificate),
}

/// Why a section is refused.
#[derive(Clone, Copy, Debug, PartialEq, Eq)]
pub enum Reason {
    /// The input ends inside the section.
    NoEnd,
    /// Where the section would begin stands a line that is no header.
    StrayLine,
    /// The body is not in the grammar.
    NotGrammar,
    /// The body is in the grammar, and some number is too wide.
    TooWide,
    /// The section is not well formed: the number of the first item that is wrong with it.
    IllFormed(u8),
    /// The command does not yet go over such a section.
    NotBuilt,
}

/// What a section holds.
#[derive(Drop)]
pub enum Content {
    Item(Item),
    /// Nothing that is taken up: the section is read over.
    Nothing,
    /// The section is refused.
    Refused(Reason),
}

/// Why a body is refused that is not read.
fn unread(refusal: ReadRule) -> Result<Content, NoMemory>
    ensures { IfOk result (λ found. unread refusal ≡ Some found) }
{
    match refusal {
        ReadRule::NotGrammar => Ok(Content::Refused(Reason::NotGrammar)),
        ReadRule::Wide => Ok(Content::Refused(Reason::TooWide)),
        ReadRule::IllFormed(item) => Ok(Content::Refused(Reason::IllFormed(item))),
        ReadRule::NoMemory => Err(NoMemory),
    }
}

/// Whether what the command does with a rule is built.
fn is_built(command: Command, rule: &Rule) -> bool
    ensures { result ≡ is_built command rule.now }
{
    match command {
        Command::Prove => is_skip_rule(rule),
        Command::Check | Command::Print | Command::Run(_) => true,
    }
}

fn is_prove(command: Command) -> bool
    ensures { result ≡ is_prove command }
{
    matches!(command, Command::Prove)
}

fn is_chain(method: Method) -> bool
    ensures { result ≡ is_chain method }
{
    matches!(method, Method::Chain)
}

/// What becomes of a rule, where its title is repeated or is not.
fn rule_content(command: Command, repeated: bool, rule: Rule) -> Content
    ensures { result ≡ rule_content command repeated rule }
{
    if repeated {
        return Content::Refused(Reason::IllFormed(12));
    }
    if is_prove(command) && is_chain(rule.method) {
        return Content::Refused(Reason::IllFormed(14));
    }
    if !is_built(command, &rule) {
        return Content::Refused(Reason::NotBuilt);
    }
    Content::Item(Item::Rule(rule))
}

/// What becomes of what the reader of rules answered.
fn rule_read_content(
    command: Command,
    repeated: bool,
    read: Result<Rule, ReadRule>,
) -> Result<Content, NoMemory>
    ensures { IfOk result (λ found. rule_read_content command repeated read ≡ Some found) }
{
    match read {
        Ok(rule) => Ok(rule_content(command, repeated, rule)),
        Err(refusal) => unread(refusal),
    }
}

/// What a rule section holds, where its title is repeated among rules or is not.
#[tactic(auto, using(crate::proofs::Answering::rule_held))]
pub fn rule_section(
    alloc: Global,
    command: Command,
    repeated: bool,
    section: &Section,
) -> Result<Content, NoMemory>
    ensures { IfOk result (RuleHolds command repeated section.now) }
{
    let read = read_rule(alloc, section);
    rule_read_content(command, repeated, read)
}

/// What becomes of what the reader of programs answered.
fn program_read_content(
    repeated: bool,
    title: Items<u8>,
    read: Result<Block, ReadRule>,
) -> Result<Content, NoMemory>
    ensures { IfOk result (λ found. program_read_content repeated title read ≡ Some found) }
{
    match read {
        Ok(_) if repeated => Ok(Content::Refused(Reason::IllFormed(12))),
        Ok(block) => Ok(Content::Item(Item::Program(Program { title, block }))),
        Err(refusal) => unread(refusal),
    }
}

/// What a program section holds, where its title is repeated among programs or is not.
#[tactic(auto, using(crate::proofs::Answering::program_held))]
pub fn program_section(
    alloc: Global,
    repeated: bool,
    section: &Section,
) -> Result<Content, NoMemory>
    ensures { IfOk result (ProgramHolds repeated section.now) }
{
    let title = Items::from_slice(alloc, section.title.as_slice())?;
    let read = read_program(alloc, section);
    program_read_content(repeated, title, read)
}

/// What becomes of a section that rests on a rule and is not read, where an earlier rule has its title or none has.
pub fn resting_section(has_rule: bool) -> Content
    ensures { result ≡ resting_content has_rule }
{
    if has_rule {
        Content::Refused(Reason::NotBuilt)
    } else {
        Content::Refused(Reason::IllFormed(13))
    }
}

/// What becomes of a certificate, where an earlier rule has its title or none has.
fn certificate_content(has_rule: bool, title: Items<u8>, certificate: Certificate) -> Content
    ensures { result ≡ certificate_content has_rule title certificate }
{
    if has_rule {
        Content::Item(Item::Certificate(TitledCertificate { title, certificate }))
    } else {
        Content::Refused(Reason::IllFormed(13))
    }
}

/// What becomes of what the reader of certificates answered.
fn certificate_read_content(
    has_rule: bool,
    title: Items<u8>,
    read: Result<Certificate, Unread>,
) -> Result<Content, NoMemory>
    ensures { IfOk result (λ found. certificate_read_content has_rule title read ≡ Some found) }
{
    match read {
        Ok(certificate) => Ok(certificate_content(has_rule, title, certificate)),
        Err(Unread::NotGrammar) => Ok(Content::Refused(Reason::NotGrammar)),
        Err(Unread::NoMemory) => Err(NoMemory),
    }
}

/// What a section holds whose body is read as a certificate.
#[tactic(auto, using(crate::proofs::Answering::certificate_held))]
fn read_cert_section(alloc: Global, has_rule: bool, section: &Section) -> Result<Content, NoMemory>
    ensures { IfOk result (CertificateHolds has_rule section.now) }
{
    let title = Items::from_slice(alloc, section.title.as_slice())?;
    let read = read_certificate(alloc, section.body.as_slice());
    certificate_read_content(has_rule, title, read)
}

/// What a `cert` section holds, where an earlier rule has its title or none has.
pub fn cert_section(alloc: Global, has_rule: bool, section: &Section) -> Result<Content, NoMemory>
    ensures { IfOk result (CertSectionHolds (is_later_format section.now.body) has_rule section.now) }
{
    if is_later_format(section.body.as_slice()) {
        Ok(resting_section(has_rule))
    } else {
        read_cert_section(alloc, has_rule, section)
    }
}

/// What becomes of a `chain` section, where an earlier rule of method chain has its title or none has,
/// and an earlier `chain` section has it or none has.
pub fn chain_section(command: Command, has_rule: bool, repeated: bool) -> Content
    ensures { result ≡ chain_content command has_rule repeated }
{
    if is_prove(command) {
        return Content::Refused(Reason::IllFormed(14));
    }
    if has_rule && !repeated {
        Content::Refused(Reason::NotBuilt)
    } else {
        Content::Refused(Reason::IllFormed(15))
    }
}

/// Whether a section holds a rule of method chain.
pub fn is_chain_rule(found: &Content) -> bool
    ensures { result ≡ is_chain_rule found.now }
{
    match found {
        Content::Item(Item::Rule(rule)) => is_chain(rule.method),
        Content::Item(Item::Program(_) | Item::Certificate(_))
        | Content::Nothing
        | Content::Refused(_) => false,
    }
}
