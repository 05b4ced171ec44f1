//! The items of an input as canonical text. `specs/PrintedItems.antt` has the text.

ghost use Rattle.std.specs.Prelude.{◌≡◌, ◌++◌, All, IfOk, OnOk};
ghost use Rattle.pec_top.specs.PrintedItems.{item_text, items_text, certificate_text, IsSpellable};

use crate::content::Item;
use crate::no_memory::NoMemory;
use crate::output::put;
use cert_checker::Certificate;
use cert_format::put_certificate;
use rule_printer::{print_program, print_rule};
use std::alloc::Global;

/// The canonical text of each item, in order.
pub fn items_text(alloc: Global, items: &[Item]) -> Result<Vec<u8>, NoMemory>
    requires { All IsSpellable items.now }
    ensures { IfOk result (λ text. text.items ≡ items_text items.now) }
{
    let mut out = Vec::new(alloc);
    for item in items {
        let text = item_text(alloc, item)?;
        put(text.as_slice(), &mut out)?;
    }
    Ok(out)
}

/// The canonical text of an item.
fn item_text(alloc: Global, item: &Item) -> Result<Vec<u8>, NoMemory>
    requires { IsSpellable item.now }
    ensures { IfOk result (λ text. text.items ≡ item_text item.now) }
{
    match item {
        Item::Rule(rule) => Ok(print_rule(alloc, rule)?),
        Item::Program(program) => {
            Ok(print_program(alloc, program.title.as_slice(), &program.block)?)
        }
        Item::Certificate(c) => certificate_text(alloc, c.title.as_slice(), &c.certificate),
    }
}

/// The canonical text of a certificate's section.
fn certificate_text(alloc: Global, title: &[u8], c: &Certificate) -> Result<Vec<u8>, NoMemory>
    ensures { IfOk result (λ text. text.items ≡ certificate_text title.now c.now) }
{
    let mut out = Vec::new(alloc);
    put(b"cert ", &mut out)?;
    put(title, &mut out)?;
    put(b"\n", &mut out)?;
    put_certificate(alloc, c, &mut out)?;
    put(b"end\n", &mut out)?;
    Ok(out)
}
