//! Stores written as the assignments that make them.

use std::alloc::Global;
use toy_run::Cell;

fn index(alloc: Global, text: &mut String, at: usize, index: i128) -> Option<()> {
    let before = if at == 0 { "[" } else { ", " };
    let piece = format!(in alloc; "{before}{index}").ok()?;
    text.push_str(piece.as_str()).ok()
}

fn cell(alloc: Global, text: &mut String, cell: &Cell) -> Option<()> {
    let name = str::from_utf8(cell.name.as_slice()).ok()?;
    text.push_str(name).ok()?;
    for (at, number) in cell.indices.as_slice().iter().enumerate() {
        index(alloc, text, at, *number)?;
    }
    if !cell.indices.is_empty() {
        text.push_str("]").ok()?;
    }
    let value = cell.value;
    let rest = format!(in alloc; " := {value}; ").ok()?;
    text.push_str(rest.as_str()).ok()
}

/// The assignments that make a store, with a space behind each.
pub fn assignments(alloc: Global, cells: &[Cell]) -> Option<String> {
    let mut text = String::new(alloc);
    for c in cells {
        cell(alloc, &mut text, c)?;
    }
    Some(text)
}
