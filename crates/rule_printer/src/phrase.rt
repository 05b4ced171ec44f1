//! Small pieces of a canonical text: words and signs, indentation, numbers, and names of a program or of declared
//! parameters. Each is put behind the text so far, and says which bytes it puts there.

ghost use Rattle.std.specs.Prelude.{◌≡◌, ◌++◌, suc, codes, IfOk, OnOk};
ghost use Rattle.toy_imp.specs.ExprCanonical.{declared_name, written_name, canonical_number};
ghost use Rattle.rule_printer.specs.CanonicalText.{factor_bytes, indent};

use itoa::Buffer;
use toy_imp::{Name, NoMemory, Param};

/// Puts these bytes behind the text.
pub fn put(bytes: &[u8], out: &mut Vec<u8>) -> Result<(), NoMemory>
    ensures { OnOk result (out.new.items ≡ out.old.items ++ bytes.now) }
{
    out.extend_from_slice(bytes)?;
    Ok(())
}

/// Puts two spaces for each of the `d` blocks round a line.
pub fn put_indent(d: u64, out: &mut Vec<u8>) -> Result<(), NoMemory>
    ensures { OnOk result (out.new.items ≡ out.old.items ++ indent d) }
{
    for _level in 0..d {
        put(b"  ", out)?;
    }
    Ok(())
}

/// One block more. A text with so many blocks would not fit into any memory.
pub fn deeper(d: u64) -> Result<u64, NoMemory>
    ensures { IfOk result (λ more. more ≡ suc d) }
{
    match d.checked_add(1) {
        Some(more) => Ok(more),
        None => Err(NoMemory),
    }
}

/// Puts a constant.
#[tactic(auto, using(crate::proofs::Phrases::number_bytes))]
pub fn put_number(z: i64, out: &mut Vec<u8>) -> Result<(), NoMemory>
    ensures { OnOk result (out.new.items ≡ out.old.items ++ factor_bytes (canonical_number z)) }
{
    let mut buffer = Buffer::new();
    put(buffer.format(z).as_bytes(), out)
}

/// Puts a name: its own bytes, or those of the declared parameter.
pub fn put_name(params: &[Param], x: &Name, out: &mut Vec<u8>) -> Result<(), NoMemory>
    ensures { OnOk result (out.new.items ≡ out.old.items ++ written_name params.now x.now) }
{
    match x {
        Name::Own(bytes) => put(bytes.as_slice(), out),
        Name::Par(k) => put_declared(params, *k, out),
    }
}

/// Puts the name of the parameter of this number, and nothing where there is none.
#[tactic(auto, using(crate::proofs::Phrases::declared_at))]
pub fn put_declared(params: &[Param], k: u32, out: &mut Vec<u8>) -> Result<(), NoMemory>
    ensures { OnOk result (out.new.items ≡ out.old.items ++ declared_name params.now k) }
{
    match params.get(k as usize) {
        Some(param) => put(param.name.as_slice(), out),
        None => Ok(()),
    }
}
