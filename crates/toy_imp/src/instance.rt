//! Instances: what stands for each parameter of a rule.
//! `specs/Fits.antt` says when an instance fits a rule, `specs/Fill.antt` what it makes of a block.

ghost use Rattle.std.specs.Prelude.{◌≡◌};
ghost use Rattle.toy_imp.specs.Fits.{fits_kind, fits_params, fits};

use crate::block::Block;
use crate::expr::Expr;
use crate::name::Name;
use crate::param::{Kind, Param};
use crate::rule::Rule;
use crate::test::Test;
use sqlite_items::Items;

/// What stands for a parameter of the kind of the same name.
#[derive(Drop)]
pub enum Filling {
    Name(Name),
    Expr(Expr),
    Test(Test),
    /// A list of statements, which may be empty.
    Stmt(Block),
}

/// A filling for each parameter, in the order of the parameters.
#[derive(Drop)]
pub struct Instance {
    pub fillings: Items<Filling>,
}

impl Filling {
    /// Whether it is of this kind, and without parameters inside.
    pub fn fits(&self, kind: Kind) -> bool
        ensures { result ≡ fits_kind kind self.now }
    {
        match (kind, self) {
            (Kind::Name, Filling::Name(x)) => x.is_own(),
            (Kind::Expr, Filling::Expr(e)) => e.is_closed(),
            (Kind::Test, Filling::Test(t)) => t.is_closed(),
            (Kind::Stmt, Filling::Stmt(b)) => b.is_program(),
            _ => false,
        }
    }
}

impl Instance {
    /// Whether there is one filling per parameter of the rule, of its kind, without parameters
    /// inside.
    pub fn fits(&self, rule: &Rule) -> bool
        ensures { result ≡ fits self.now rule.now }
    {
        fits_params(rule.params.as_slice(), self.fillings.as_slice())
    }
}

// The same, of the lists of parameters and of fillings.
fn fits_params(params: &[Param], fillings: &[Filling]) -> bool
    ensures { result ≡ fits_params params.now fillings.now }
{
    if params.len() != fillings.len() {
        return false;
    }
    for (i, p) in params.iter().enumerate() {
        if !fillings[i].fits(p.kind) {
            return false;
        }
    }
    true
}
