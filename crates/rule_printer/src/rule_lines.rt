//! The lines of a rule before its sides, in canonical text: declarations in runs of one kind, conditions,
//! method and cuts (`specs/RuleCanonicalText.antt`).

ghost use Rattle.std.specs.Prelude.{◌≡◌, ◌++◌, codes, decimal, flat_map, map, OnOk};
ghost use Rattle.toy_imp.specs.ExprCanonical.{declared_name};
ghost use Rattle.toy_imp.specs.Faults.{kind_is};
ghost use Rattle.toy_imp.specs.declared.rule.CutList.TheVariants as cuts;
ghost use Rattle.pec_text.specs.Spelling.{word_text};
ghost use Rattle.program_reader.specs.RuleCanonical.{declarations, canonical_condition, canonical_method, canonical_cuts};
ghost use Rattle.program_reader.specs.RuleTokens.{kind_word, region_word};
ghost use Rattle.rule_printer.specs.RuleCanonicalText.{declaration_bytes, condition_bytes, given_bytes, method_bytes, pair_bytes, cuts_bytes};
ghost use Rattle.rule_printer.specs.RulePieces.{first_bytes, next_bytes, declared_after, over_bytes};

use crate::phrase::{put, put_declared};
use itoa::Buffer;
use toy_imp::{Condition, CutList, Kind, Method, NoMemory, Param, Region};

/// Puts the declarations of all parameters.
#[tactic(auto, using(crate::proofs::RulePieces::some_declared))]
pub fn put_declarations(params: &[Param], out: &mut Vec<u8>) -> Result<(), NoMemory>
    ensures { OnOk result (out.new.items ≡ out.old.items ++ flat_map declaration_bytes (declarations params.now)) }
{
    match params.split_first() {
        None => put(b"", out),
        Some((first, more)) => {
            put_first(first, out)?;
            put_after(first.kind, more, out)
        }
    }
}

/// Puts the parameters behind one of this kind, up to the end of the last declaration.
#[tactic(auto, using(crate::proofs::RulePieces::one_declared))]
fn put_after(kind: Kind, params: &[Param], out: &mut Vec<u8>) -> Result<(), NoMemory>
    ensures { OnOk result (out.new.items ≡ out.old.items ++ declared_after kind params.now) }
{
    let mut last = kind;
    for p in params {
        put_next(last, p, out)?;
        last = p.kind;
    }
    put(b";\n", out)
}

/// Puts a parameter that begins a declaration.
fn put_first(p: &Param, out: &mut Vec<u8>) -> Result<(), NoMemory>
    ensures { OnOk result (out.new.items ≡ out.old.items ++ first_bytes p.now) }
{
    put_kind(p.kind, out)?;
    put(b" ", out)?;
    put(p.name.as_slice(), out)
}

/// Puts a parameter behind one of this kind.
fn put_next(kind: Kind, p: &Param, out: &mut Vec<u8>) -> Result<(), NoMemory>
    ensures { OnOk result (out.new.items ≡ out.old.items ++ next_bytes kind p.now) }
{
    if is_kind(kind, p.kind) {
        put(b" ", out)?;
        put(p.name.as_slice(), out)
    } else {
        put(b";\n", out)?;
        put_first(p, out)
    }
}

fn is_kind(a: Kind, b: Kind) -> bool
    ensures { result ≡ kind_is a b }
{
    match (a, b) {
        (Kind::Name, Kind::Name) => true,
        (Kind::Expr, Kind::Expr) => true,
        (Kind::Test, Kind::Test) => true,
        (Kind::Stmt, Kind::Stmt) => true,
        _ => false,
    }
}

fn put_kind(kind: Kind, out: &mut Vec<u8>) -> Result<(), NoMemory>
    ensures { OnOk result (out.new.items ≡ out.old.items ++ word_text (kind_word kind)) }
{
    match kind {
        Kind::Name => put(b"name", out),
        Kind::Expr => put(b"expr", out),
        Kind::Test => put(b"test", out),
        Kind::Stmt => put(b"stmt", out),
    }
}

/// Puts a line for each condition.
#[tactic(auto, using(crate::proofs::RulePieces::one_given))]
pub fn put_conditions(
    params: &[Param],
    conditions: &[Condition],
    out: &mut Vec<u8>,
) -> Result<(), NoMemory>
    ensures { OnOk result (out.new.items ≡ out.old.items ++ flat_map given_bytes (map (canonical_condition params.now) conditions.now)) }
{
    for c in conditions {
        put_given(params, c, out)?;
    }
    Ok(())
}

fn put_given(params: &[Param], c: &Condition, out: &mut Vec<u8>) -> Result<(), NoMemory>
    ensures { OnOk result (out.new.items ≡ out.old.items ++ given_bytes (canonical_condition params.now c.now)) }
{
    put(b"given ", out)?;
    put_condition(params, c, out)?;
    put(b";\n", out)
}

#[tactic(auto, using(crate::proofs::RulePieces::swaps_parts))]
fn put_condition(params: &[Param], c: &Condition, out: &mut Vec<u8>) -> Result<(), NoMemory>
    ensures { OnOk result (out.new.items ≡ out.old.items ++ condition_bytes (canonical_condition params.now c.now)) }
{
    match c {
        Condition::Keeps(s, o) => put_two(params, b"keeps ", *s, *o, out),
        Condition::Ignores(o, x) => put_two(params, b"ignores ", *o, *x, out),
        Condition::Commutes(s, t) => put_two(params, b"commutes ", *s, *t, out),
        Condition::Positive(e) => put_one(params, b"positive ", *e, out),
        Condition::Constant(e) => put_one(params, b"constant ", *e, out),
        Condition::Distinct(x, y) => put_two(params, b"distinct ", *x, *y, out),
        Condition::Quiet(s) => put_one(params, b"quiet ", *s, out),
        Condition::Swaps(s, t, names, region) => {
            put_two(params, b"swaps ", *s, *t, out)?;
            put_over(params, names.as_slice(), *region, out)
        }
    }
}

/// Puts a word and a parameter.
fn put_one(params: &[Param], word: &[u8], k: u32, out: &mut Vec<u8>) -> Result<(), NoMemory>
    ensures { OnOk result (out.new.items ≡ out.old.items ++ (word.now ++ declared_name params.now k)) }
{
    put(word, out)?;
    put_declared(params, k, out)
}

/// Puts a word and two parameters.
fn put_two(params: &[Param], word: &[u8], j: u32, k: u32, out: &mut Vec<u8>) -> Result<(), NoMemory>
    ensures { OnOk result (out.new.items ≡ out.old.items ++ (word.now ++ (declared_name params.now j ++ (codes " " ++ declared_name params.now k)))) }
{
    put_one(params, word, j, out)?;
    put(b" ", out)?;
    put_declared(params, k, out)
}

/// Puts the names and the region of a `swaps` condition.
fn put_over(
    params: &[Param],
    names: &[u32],
    region: Region,
    out: &mut Vec<u8>,
) -> Result<(), NoMemory>
    ensures { OnOk result (out.new.items ≡ out.old.items ++ (codes " over " ++ (over_bytes params.now names.now ++ (codes " " ++ region_word region)))) }
{
    put(b" over ", out)?;
    put_names(params, names, out)?;
    put(b" ", out)?;
    put_region(region, out)
}

fn put_names(params: &[Param], names: &[u32], out: &mut Vec<u8>) -> Result<(), NoMemory>
    ensures { OnOk result (out.new.items ≡ out.old.items ++ over_bytes params.now names.now) }
{
    match names {
        [] => put(b"", out),
        [k] => put_declared(params, *k, out),
        [k, l, ..] => {
            put_declared(params, *k, out)?;
            put(b", ", out)?;
            put_declared(params, *l, out)
        }
    }
}

fn put_region(region: Region, out: &mut Vec<u8>) -> Result<(), NoMemory>
    ensures { OnOk result (out.new.items ≡ out.old.items ++ region_word region) }
{
    match region {
        Region::Distinct => put(b"distinct", out),
        Region::Earlier => put(b"earlier", out),
        Region::Crossing => put(b"crossing", out),
    }
}

/// Puts the line of the method, where there is one.
pub fn put_method(method: Method, out: &mut Vec<u8>) -> Result<(), NoMemory>
    ensures { OnOk result (out.new.items ≡ out.old.items ++ method_bytes (canonical_method method)) }
{
    match method {
        Method::Simulate => put(b"", out),
        Method::Permute => put(b"method permute;\n", out),
        Method::Chain => put(b"method chain;\n", out),
        Method::Tile => put(b"method tile;\n", out),
    }
}

/// Puts the line of the cuts, where there is one.
pub fn put_cuts(cuts: &CutList, out: &mut Vec<u8>) -> Result<(), NoMemory>
    ensures { OnOk result (out.new.items ≡ out.old.items ++ cuts_bytes (canonical_cuts cuts.now)) }
{
    match cuts {
        CutList::Default => put(b"", out),
        CutList::Listed(pairs) => put_pairs(pairs.as_slice(), out),
    }
}

fn put_pairs(pairs: &[(u32, u32)], out: &mut Vec<u8>) -> Result<(), NoMemory>
    ensures { OnOk result (out.new.items ≡ out.old.items ++ cuts_bytes (canonical_cuts (cuts.Listed pairs.now))) }
{
    match pairs.split_first() {
        None => put(b"cuts none;\n", out),
        Some((first, more)) => {
            put(b"cuts ", out)?;
            put_pair(*first, out)?;
            put_more(more, out)?;
            put(b";\n", out)
        }
    }
}

/// Puts further pairs, each behind a comma.
#[tactic(auto, using(crate::proofs::RulePieces::one_pair))]
fn put_more(pairs: &[(u32, u32)], out: &mut Vec<u8>) -> Result<(), NoMemory>
    ensures { OnOk result (out.new.items ≡ out.old.items ++ flat_map (λ b. codes ", " ++ pair_bytes b) pairs.now) }
{
    for pair in pairs {
        put_next_pair(*pair, out)?;
    }
    Ok(())
}

fn put_next_pair(pair: (u32, u32), out: &mut Vec<u8>) -> Result<(), NoMemory>
    ensures { OnOk result (out.new.items ≡ out.old.items ++ (codes ", " ++ pair_bytes pair)) }
{
    put(b", ", out)?;
    put_pair(pair, out)
}

fn put_pair(pair: (u32, u32), out: &mut Vec<u8>) -> Result<(), NoMemory>
    ensures { OnOk result (out.new.items ≡ out.old.items ++ pair_bytes pair) }
{
    put_point(pair.0, out)?;
    put(b" ", out)?;
    put_point(pair.1, out)
}

fn put_point(p: u32, out: &mut Vec<u8>) -> Result<(), NoMemory>
    ensures { OnOk result (out.new.items ≡ out.old.items ++ decimal p) }
{
    let mut buffer = Buffer::new();
    put(buffer.format(p).as_bytes(), out)
}
