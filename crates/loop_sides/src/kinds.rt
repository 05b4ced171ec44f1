//! Of which kind a parameter of a rule is, by its number.
//! Each answer is `has_kind` of the definition of rules; a number that no parameter has is of no kind.

ghost use Rattle.std.specs.Prelude.{◌≡◌, ◌<◌, length, IsTrue};
ghost use Rattle.toy_imp.specs.declared.param.Kind.TheVariants as kind;
ghost use Rattle.toy_imp.specs.Faults.{has_kind};

use toy_imp::{Kind, Param};

pub fn is_name(params: &[Param], k: usize) -> bool
    ensures { result ≡ has_kind params.now kind.Name k }
{
    has_kind(params, Kind::Name, k)
}

pub fn is_statement(params: &[Param], k: usize) -> bool
    ensures { result ≡ has_kind params.now kind.Stmt k }
{
    has_kind(params, Kind::Stmt, k)
}

pub fn is_symbol(params: &[Param], k: usize) -> bool
    ensures is { result ≡ has_kind params.now kind.Expr k }
    ensures within { IsTrue result → k < length params.now }
{
    match params.get(k) {
        Some(p) => p.kind == Kind::Expr,
        None => false,
    }
}

fn has_kind(params: &[Param], wanted: Kind, k: usize) -> bool
    ensures { result ≡ has_kind params.now wanted k }
{
    match params.get(k) {
        Some(p) => p.kind == wanted,
        None => false,
    }
}
