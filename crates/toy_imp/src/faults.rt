//! What is wrong with a rule that is not well formed, as numbered items.
//! `specs/Faults.antt` defines each item; `first_fault` answers the first that holds.

ghost use Rattle.std.specs.Prelude.{◌≡◌, ◌&&◌, bytes_eq, length, nat_le};
ghost use Rattle.std.specs.List.{list_all, list_any};
ghost use Rattle.toy_imp.specs.Faults as spec;
ghost use Rattle.toy_imp.specs.declared.param.Kind.TheVariants as kind;

use crate::block::{Block, Stmt, StmtNode};
use crate::condition::Condition;
use crate::param::{Kind, Param};
use crate::points::block_points;
use crate::rule::{CutList, Method, Rule};
use crate::uses::{Question, block_any, has_kind};

impl Rule {
    /// Whether none of the items holds.
    pub fn well_formed(&self) -> bool
        ensures { result ≡ spec.well_formed self.now }
    {
        self.first_fault().is_none()
    }

    /// The least number of an item that holds: 1, two parameters have one name; 2, something is not
    /// declared; 3, a parameter stands where its kind is not allowed; 4, a parameter does not occur
    /// on the left; 5, a rule of method simulate has `for`, `let` or `swaps`; 6, the cuts are wrong;
    /// 11, there are too many parameters or conditions. None where the rule is well formed. It takes no
    /// memory, and the time of a walk over the left side for each parameter.
    pub fn first_fault(&self) -> Option<u8>
        ensures { result ≡ spec.first_fault self.now }
    {
        self.first_fault_where(
            repeats_name(self.params.as_slice()),
            omits_parameter(self),
            repeats_cut(&self.cuts),
        )
    }

    /// The same in linear time, for whoever knows whether two parameters have one name, whether one
    /// does not occur on the left, and whether a pair of cuts is listed twice.
    #[tactic(auto, unfolding(crate::specs::Faults::first_fault))]
    pub fn first_fault_where(
        &self,
        repeats_name: bool,
        omits_parameter: bool,
        repeats_cut: bool,
    ) -> Option<u8>
        requires names { repeats_name ≡ spec.repeats_name self.now.params }
        requires used { omits_parameter ≡ spec.omits_parameter self.now }
        requires cuts { repeats_cut ≡ spec.repeats_cut self.now.cuts }
        ensures { result ≡ spec.first_fault self.now }
    {
        if repeats_name {
            Some(1)
        } else if uses_undeclared(self) {
            Some(2)
        } else if misplaces_parameter(self) {
            Some(3)
        } else if omits_parameter {
            Some(4)
        } else if simulates_scopes(self) {
            Some(5)
        } else if has_wrong_cuts(self, repeats_cut) {
            Some(6)
        } else if self.params.len() > 64 || self.conditions.len() > 64 {
            Some(11)
        } else {
            None
        }
    }
}

// Two parameters have one name.

fn repeats_name(mut params: &[Param]) -> bool
    ensures { result ≡ spec.repeats_name params.entry.now }
{
    while let [p, rest @ ..] = params {
        if is_named(rest, p.name.as_slice()) {
            return true;
        }
        params = rest;
    }
    false
}

fn is_named(params: &[Param], name: &[u8]) -> bool
    ensures { result ≡ list_any (λ q. bytes_eq q.name name.now) params.now }
{
    params.iter().any(|q| q.name.as_slice() == name)
}

// Something is not declared.

fn uses_undeclared(rule: &Rule) -> bool
    ensures { result ≡ spec.uses_undeclared rule.now }
{
    let count = rule.params.len();
    block_any(Question::IsUndeclared(count), &rule.left)
        || block_any(Question::IsUndeclared(count), &rule.right)
        || some_cites(rule.conditions.as_slice(), count)
}

fn some_cites(conditions: &[Condition], count: usize) -> bool
    ensures { result ≡ list_any (λ c. list_any (nat_le count) (spec.condition_numbers c)) conditions.now }
{
    conditions.iter().any(|c| cites(c, count))
}

/// Whether a condition has a number that is not below the count.
fn cites(c: &Condition, count: usize) -> bool
    ensures { result ≡ list_any (nat_le count) (spec.condition_numbers c.now) }
{
    match c {
        Condition::Keeps(s, o) => count <= *s as usize || count <= *o as usize,
        Condition::Ignores(o, x) => count <= *o as usize || count <= *x as usize,
        Condition::Commutes(s, t) => count <= *s as usize || count <= *t as usize,
        Condition::Positive(e) => count <= *e as usize,
        Condition::Constant(e) => count <= *e as usize,
        Condition::Distinct(x, y) => count <= *x as usize || count <= *y as usize,
        Condition::Quiet(s) => count <= *s as usize,
        Condition::Swaps(s, t, names, _) => {
            count <= *s as usize || count <= *t as usize || some_reach(names.as_slice(), count)
        }
    }
}

fn some_reach(numbers: &[u32], count: usize) -> bool
    ensures { result ≡ list_any (nat_le count) numbers.now }
{
    numbers.iter().any(|k| count <= *k as usize)
}

// A parameter stands where its kind is not allowed.

fn misplaces_parameter(rule: &Rule) -> bool
    ensures { result ≡ spec.misplaces_parameter rule.now }
{
    let params = rule.params.as_slice();
    block_any(Question::IsMisplaced(params), &rule.left)
        || block_any(Question::IsMisplaced(params), &rule.right)
        || !all_have_kinds(rule.conditions.as_slice(), params)
}

fn all_have_kinds(conditions: &[Condition], params: &[Param]) -> bool
    ensures { result ≡ list_all (spec.has_condition_kinds params.now) conditions.now }
{
    conditions.iter().all(|c| has_condition_kinds(params, c))
}

/// Whether the parameters of a condition are of the kinds of its form.
fn has_condition_kinds(params: &[Param], c: &Condition) -> bool
    ensures { result ≡ spec.has_condition_kinds params.now c.now }
{
    match c {
        Condition::Keeps(s, o) => {
            has_kind(params, Kind::Stmt, *s)
                && (has_kind(params, Kind::Expr, *o)
                    || has_kind(params, Kind::Test, *o)
                    || has_kind(params, Kind::Name, *o))
        }
        Condition::Ignores(o, x) => {
            (has_kind(params, Kind::Expr, *o)
                || has_kind(params, Kind::Test, *o)
                || has_kind(params, Kind::Stmt, *o))
                && has_kind(params, Kind::Name, *x)
        }
        Condition::Commutes(s, t) => {
            has_kind(params, Kind::Stmt, *s) && has_kind(params, Kind::Stmt, *t)
        }
        Condition::Positive(e) => has_kind(params, Kind::Expr, *e),
        Condition::Constant(e) => has_kind(params, Kind::Expr, *e),
        Condition::Distinct(x, y) => {
            has_kind(params, Kind::Name, *x) && has_kind(params, Kind::Name, *y)
        }
        Condition::Quiet(s) => has_kind(params, Kind::Stmt, *s),
        Condition::Swaps(s, t, names, _) => {
            has_kind(params, Kind::Stmt, *s)
                && has_kind(params, Kind::Stmt, *t)
                && are_names(params, names.as_slice())
        }
    }
}

fn are_names(params: &[Param], numbers: &[u32]) -> bool
    ensures { result ≡ list_all (spec.has_kind params.now kind.Name) numbers.now }
{
    numbers.iter().all(|k| has_kind(params, Kind::Name, *k))
}

// A parameter does not occur in the left side.

fn omits_parameter(rule: &Rule) -> bool
    ensures { result ≡ spec.omits_parameter rule.now }
{
    for k in 0..rule.params.len() {
        if !block_any(Question::IsNumber(k), &rule.left) {
            return true;
        }
    }
    false
}

// A rule of method simulate has `for`, `let` or `swaps`.

fn simulates_scopes(rule: &Rule) -> bool
    ensures { result ≡ spec.simulates_scopes rule.now }
{
    rule.method == Method::Simulate
        && (has_scope(&rule.left)
            || has_scope(&rule.right)
            || some_swaps(rule.conditions.as_slice()))
}

fn some_swaps(conditions: &[Condition]) -> bool
    ensures { result ≡ list_any spec.is_swaps conditions.now }
{
    conditions.iter().any(|c| is_swaps(c))
}

fn is_swaps(c: &Condition) -> bool
    ensures { result ≡ spec.is_swaps c.now }
{
    matches!(c, Condition::Swaps(_, _, _, _))
}

/// Whether a block has a `for` or a `let`.
#[cycle(has_scope)]
#[tactic(auto, using(crate::specs::BlockFalls::stmt_item))]
fn has_scope(b: &Block) -> bool
    ensures { result ≡ spec.has_scope b.now }
{
    for s in b.stmts.as_slice() {
        if stmt_has_scope(s) {
            return true;
        }
    }
    false
}

#[cycle(has_scope)]
fn stmt_has_scope(s: &Stmt) -> bool
    ensures { result ≡ spec.stmt_has_scope s.now }
{
    match &s.node {
        StmtNode::If(_, b, c) => has_scope(b) || has_scope(c),
        StmtNode::While(_, b) => has_scope(b),
        StmtNode::For(_, _, _, _) | StmtNode::Let(_, _, _) => true,
        StmtNode::Skip | StmtNode::Put(_, _, _) | StmtNode::Assert(_) | StmtNode::Par(_) => false,
    }
}

// The cuts are wrong.

fn has_wrong_cuts(rule: &Rule, repeats_cut: bool) -> bool
    requires { repeats_cut ≡ spec.repeats_cut rule.now.cuts }
    ensures { result ≡ spec.has_wrong_cuts rule.now }
{
    match &rule.cuts {
        CutList::Default => false,
        CutList::Listed(pairs) => {
            !may_list_cuts(rule.method)
                || !are_inside(pairs.as_slice(), &rule.left, &rule.right)
                || repeats_cut
        }
    }
}

fn may_list_cuts(method: Method) -> bool
    ensures { result ≡ spec.may_list_cuts method }
{
    match method {
        Method::Simulate | Method::Tile => true,
        Method::Permute | Method::Chain => false,
    }
}

fn repeats_cut(cuts: &CutList) -> bool
    ensures { result ≡ spec.repeats_cut cuts.now }
{
    match cuts {
        CutList::Default => false,
        CutList::Listed(pairs) => repeats_pair(pairs.as_slice()),
    }
}

/// Whether each pair is one of points inside the two sides.
#[tactic(auto, using(crate::proofs::Faultless::within_saturated))]
fn are_inside(pairs: &[(u32, u32)], left: &Block, right: &Block) -> bool
    ensures { result ≡ list_all (spec.is_inside left.now right.now) pairs.now }
{
    let left = block_points(left);
    let right = block_points(right);
    for a in pairs {
        if !is_within(left, a.0) || !is_within(right, a.1) {
            return false;
        }
    }
    true
}

fn is_within(count: u64, p: u32) -> bool
    ensures { result ≡ spec.is_within count p }
{
    1 <= p && u64::from(p) <= count
}

fn repeats_pair(mut pairs: &[(u32, u32)]) -> bool
    ensures { result ≡ spec.repeats_pair pairs.entry.now }
{
    while let [a, rest @ ..] = pairs {
        if is_listed(rest, a.0, a.1) {
            return true;
        }
        pairs = rest;
    }
    false
}

fn is_listed(pairs: &[(u32, u32)], left: u32, right: u32) -> bool
    ensures { result ≡ list_any (spec.same_pair (left, right)) pairs.now }
{
    pairs.iter().any(|b| left == b.0 && right == b.1)
}
