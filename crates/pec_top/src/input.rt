//! What an input holds: the items of its sections in order, or the first section that is refused.
//! `specs/Input.antt` says which. Time grows with the bytes: each section is read once, and each title
//! is looked up once.

ghost use Rattle.std.specs.Prelude.{◌≡◌, IfOk};
ghost use Rattle.pec_top.specs.Content.{KindHolds};
ghost use Rattle.pec_top.specs.Input.{InputIs, OneInput, rest_refusal};
ghost use Rattle.pec_top.specs.FaultlessItems.{HasNoFault};
ghost use Rattle.pec_top.specs.PrintedItems.{IsPrintable};
ghost use Rattle.pec_top.specs.Serving.{IsInput};
ghost use Rattle.pec_top.specs.Seen.{namesakes_in, Sees};

use crate::command::Command;
use crate::content::{
    Content, Item, Reason, cert_section, chain_section, program_section, resting_section,
    rule_section,
};
use crate::no_memory::NoMemory;
use crate::titles::{Titles, is_repeated, is_seen, see_chain_rule};
use pec_text::{Section, SectionKind, SectionList, TextRefusal, sections};
use sqlite_items::Items;
use std::alloc::Global;

/// The first section that is refused, numbered from 1, and why.
#[derive(Clone, Copy, Debug, PartialEq, Eq)]
pub struct Refusal {
    pub section: u64,
    pub reason: Reason,
}

/// What an input holds.
#[derive(Drop)]
pub enum Input {
    /// No section is refused, and these are their items in order.
    Accepted(Items<Item>),
    /// A section is refused.
    Refused(Refusal),
    /// The input has more bytes than the limit; no section of it is read.
    Larger,
}

/// What these bytes are as an input of the command.
pub fn read_input(alloc: Global, command: Command, bytes: &[u8]) -> Result<Input, NoMemory>
    ensures is { IfOk result (IsInput command bytes.now) }
    ensures printable { IfOk result IsPrintable }
    ensures faultless { IfOk result HasNoFault }
{
    let text = sections(alloc, bytes)?;
    text_input(alloc, command, &text)
}

/// What the sections of a text are as an input of the command.
#[tactic(auto, using(crate::proofs::Accepted::none_accepted))]
fn text_input(alloc: Global, command: Command, text: &SectionList) -> Result<Input, NoMemory>
    ensures { IfOk result (InputIs command text.now) }
{
    let mut titles = Titles::new(alloc);
    let mut items = Items::new(alloc);
    let mut number = 0u64;
    for section in text.whole.as_slice() {
        number += 1;
        match section_content(alloc, command, &mut titles, section)? {
            Content::Item(item) => items.push(item)?,
            Content::Nothing => {}
            Content::Refused(reason) => {
                return Ok(Input::Refused(Refusal {
                    section: number,
                    reason,
                }));
            }
        }
    }
    match rest_refusal(&text.rest) {
        Some(refusal) => Ok(Input::Refused(refusal)),
        None => Ok(Input::Accepted(items)),
    }
}

/// What a section holds behind those whose titles were seen. Its own title is seen then.
fn section_content<'a>(
    alloc: Global,
    command: Command,
    titles: &mut Titles<'a>,
    section: &'a Section,
) -> Result<Content, NoMemory>
    ensures found { IfOk result
        (KindHolds section.now.kind command (namesakes_in titles.old section.now.title) section.now) }
    ensures titles { IfOk result (Sees titles.old titles.new section.now) }
{
    let title = section.title.as_slice();
    match section.kind {
        SectionKind::Rule => {
            let repeated = is_repeated(&mut titles.rules, title)?;
            let found = rule_section(alloc, command, repeated, section)?;
            see_chain_rule(&mut titles.chain_rules, title, &found)?;
            Ok(found)
        }
        SectionKind::Program => {
            let repeated = is_repeated(&mut titles.programs, title)?;
            program_section(alloc, repeated, section)
        }
        SectionKind::Cert => {
            let has_rule = is_seen(&titles.rules, title);
            cert_section(alloc, has_rule, section)
        }
        SectionKind::Refused | SectionKind::Trace => {
            let has_rule = is_seen(&titles.rules, title);
            Ok(resting_section(has_rule))
        }
        SectionKind::Report => Ok(Content::Nothing),
        SectionKind::Chain => {
            let has_rule = is_seen(&titles.chain_rules, title);
            let repeated = is_repeated(&mut titles.chains, title)?;
            Ok(chain_section(command, has_rule, repeated))
        }
    }
}

/// Why what stands behind the whole sections of a text is refused, where it is.
fn rest_refusal(rest: &Option<TextRefusal>) -> Option<Refusal>
    ensures { result ≡ rest_refusal rest.now }
{
    match rest {
        None => None,
        Some(TextRefusal::Unended(section)) => Some(Refusal {
            section: *section,
            reason: Reason::NoEnd,
        }),
        Some(TextRefusal::Stray(section)) => Some(Refusal {
            section: *section,
            reason: Reason::StrayLine,
        }),
    }
}

/// A law: the sections of a text are one input under a command. So the bytes, and the command, determine
/// what is written and with which status. It does nothing.
pub fn one_input()
    ensures { OneInput }
{}
