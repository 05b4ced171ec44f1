//! Where a statement stands on a side, the values of the names round it, and both sides of a rule.
//! `specs/Spots.antt` says what each is; nothing here takes memory.

ghost use Rattle.std.specs.Prelude.{◌≡◌, ◌≤◌, ◌<◌, count_by, IfSome};
ghost use Rattle.std.specs.List.{list_any};
ghost use Rattle.toy_imp.specs.declared.param.Kind.TheVariants as kind;
ghost use Rattle.toy_imp.specs.Faults.{kind_is};
ghost use Rattle.loop_sides.specs.Below.{all_below};
ghost use Rattle.loop_sides.specs.Small.{IsAffine, IsAffineLet, IsAffineLets, IsAffinePiece, IsAffinePieces, IsAffineNest, IsAffineSide, IsAffineSpot, AreAffineSides};
ghost use Rattle.loop_sides.specs.Spots as spec;

use crate::reading::side_of;
use crate::shape::{Let, Lets, Loop, Loops, Nest, Piece, Pieces, Side};
use affine_forms::Form;
use toy_imp::{Kind, Param, Rule};

/// The loops and the `let`s round a statement.
#[derive(Clone, Copy)]
pub struct Spot {
    pub loops: Loops,
    pub lets: Lets,
}

/// Both sides of a rule.
#[derive(Clone, Copy)]
pub struct Sides {
    pub left: Side,
    pub right: Side,
}

/// Both sides of a rule, none where it is not in the form of rules of loops: where a side has no such shape, a
/// statement does not stand once on both sides, there is a test parameter, or there are more than eight expression
/// parameters.
#[tactic(auto, unfolding(crate::specs::Spots::sides_of))]
pub fn sides_of(rule: &Rule) -> Option<Sides>
    ensures is { result ≡ spec.sides_of rule.now }
    ensures small { IfSome result AreAffineSides }
{
    let params = rule.params.as_slice();
    if has_loop_params(params) {
        let left = side_of(params, &rule.left);
        let right = side_of(params, &rule.right);
        sides_with(params.len(), left, right)
    } else {
        None
    }
}

#[tactic(auto, unfolding(crate::specs::Spots::sides_with))]
fn sides_with(count: usize, left: Option<Side>, right: Option<Side>) -> Option<Sides>
    requires left { IfSome left IsAffineSide }
    requires right { IfSome right IsAffineSide }
    ensures is { result ≡ spec.sides_with count left right }
    ensures small { IfSome result AreAffineSides }
{
    match (left, right) {
        (Some(left), Some(right)) => {
            if all_stand_alike(count, &left, &right) {
                Some(Sides { left, right })
            } else {
                None
            }
        }
        _ => None,
    }
}

fn all_stand_alike(count: usize, left: &Side, right: &Side) -> bool
    ensures { result ≡ all_below (spec.stands_alike left.now right.now) count }
{
    for k in 0..count {
        if !stands_alike(left, right, k) {
            return false;
        }
    }
    true
}

fn stands_alike(left: &Side, right: &Side, k: usize) -> bool
    ensures { result ≡ spec.stands_alike left.now right.now k }
{
    let on_left = count(k, left);
    on_left == count(k, right) && on_left <= 1
}

/// How often a statement stands on a side.
fn count(k: usize, side: &Side) -> u32
    ensures is { result ≡ spec.count k side.now }
    ensures few { result ≤ 4 }
{
    match side {
        Side::One(n) => pieces_count(k, &n.pieces),
        Side::Two(m, n) => pieces_count(k, &m.pieces) + pieces_count(k, &n.pieces),
    }
}

fn pieces_count(k: usize, pieces: &Pieces) -> u32
    ensures is { result ≡ spec.pieces_count k pieces.now }
    ensures few { result ≤ 2 }
{
    match pieces {
        Pieces::One(p) => piece_count(k, p),
        Pieces::Two(p, q) => piece_count(k, p) + piece_count(k, q),
    }
}

fn piece_count(k: usize, p: &Piece) -> u32
    ensures is { result ≡ spec.piece_count k p.now }
    ensures few { result ≤ 1 }
{
    if p.statement as usize == k { 1 } else { 0 }
}

fn has_loop_params(params: &[Param]) -> bool
    ensures { result ≡ spec.has_loop_params params.now }
{
    !has_test(params) && symbol_count(params) <= 8
}

fn has_test(params: &[Param]) -> bool
    ensures { result ≡ list_any (λ p. kind_is kind.Test p.kind) params.now }
{
    params.iter().any(|p| p.kind == Kind::Test)
}

fn symbol_count(params: &[Param]) -> usize
    ensures { result ≡ count_by (λ p. kind_is kind.Expr p.kind) params.now }
{
    params.iter().filter(|p| p.kind == Kind::Expr).count()
}

/// The place of a statement on a side, none where it does not stand there.
pub fn spot_of(k: usize, side: &Side) -> Option<Spot>
    requires { IsAffineSide side.now }
    ensures is { result ≡ spec.spot_of k side.now }
    ensures small { IfSome result IsAffineSpot }
{
    match side {
        Side::One(n) => nest_spot(k, n),
        Side::Two(m, n) => match nest_spot(k, m) {
            Some(spot) => Some(spot),
            None => nest_spot(k, n),
        },
    }
}

fn nest_spot(k: usize, nest: &Nest) -> Option<Spot>
    requires { IsAffineNest nest.now }
    ensures is { result ≡ spec.nest_spot k nest.now }
    ensures small { IfSome result IsAffineSpot }
{
    match &nest.pieces {
        Pieces::One(p) => piece_spot(k, nest.loops, p),
        Pieces::Two(p, q) => match piece_spot(k, nest.loops, p) {
            Some(spot) => Some(spot),
            None => piece_spot(k, nest.loops, q),
        },
    }
}

#[tactic(auto, unfolding(crate::specs::Spots::piece_spot))]
fn piece_spot(k: usize, loops: Loops, p: &Piece) -> Option<Spot>
    requires { IsAffinePiece p.now }
    ensures is { result ≡ spec.piece_spot k loops p.now }
    ensures small { IfSome result IsAffineSpot }
{
    if p.statement as usize == k {
        Some(Spot {
            loops,
            lets: p.lets,
        })
    } else {
        None
    }
}

/// The value of a name at a statement, by the counters of its nest: none where no loop and no `let` sets it there.
pub fn value_at(spot: &Spot, x: usize) -> Option<Form>
    requires { IsAffineSpot spot.now }
    ensures is { result ≡ spec.value_at spot.now x }
    ensures small { IfSome result IsAffine }
{
    match lets_value(&spot.lets, x) {
        Some(value) => Some(value),
        None => loops_value(&spot.loops, x),
    }
}

fn lets_value(lets: &Lets, x: usize) -> Option<Form>
    requires { IsAffineLets lets.now }
    ensures is { result ≡ spec.lets_value lets.now x }
    ensures small { IfSome result IsAffine }
{
    match lets {
        Lets::None => None,
        Lets::One(a) => let_value(a, x),
        Lets::Two(a, b) => match let_value(b, x) {
            Some(value) => Some(value),
            None => let_value(a, x),
        },
    }
}

#[tactic(auto, unfolding(crate::specs::Spots::let_value))]
fn let_value(a: &Let, x: usize) -> Option<Form>
    requires { IsAffineLet a.now }
    ensures is { result ≡ spec.let_value a.now x }
    ensures small { IfSome result IsAffine }
{
    if a.name as usize == x {
        Some(a.value)
    } else {
        None
    }
}

fn loops_value(loops: &Loops, x: usize) -> Option<Form>
    ensures is { result ≡ spec.loops_value loops.now x }
    ensures small { IfSome result IsAffine }
{
    match loops {
        Loops::One(a) => counter_value(0, a, x),
        Loops::Two(a, b) => match counter_value(0, a, x) {
            Some(value) => Some(value),
            None => counter_value(1, b, x),
        },
    }
}

#[tactic(auto, unfolding(crate::specs::Spots::counter_value))]
fn counter_value(place: usize, a: &Loop, x: usize) -> Option<Form>
    requires { place < 4 }
    ensures is { result ≡ spec.counter_value place a.now x }
    ensures small { IfSome result IsAffine }
{
    if a.counter as usize == x {
        Some(Form::counter(place))
    } else {
        None
    }
}
