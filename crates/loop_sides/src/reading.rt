//! The shape of a side, read from its block.
//! `specs/Sides.antt` says which block has which shape, and `specs/Small.antt` that its forms are affine.

ghost use Rattle.std.specs.Prelude.{◌≡◌, ◌≤◌, length, IfSome};
ghost use Rattle.loop_sides.specs.Sides as spec;
ghost use Rattle.loop_sides.specs.Small.{IsAffine, IsAffineLet, IsAffineLets, IsAffinePiece, IsAffinePieces, IsAffineLoop, IsAffineLoops, IsAffineNest, IsAffineSide};

use crate::forms::affine;
use crate::kinds::{is_name, is_statement};
use crate::shape::{Let, Lets, Loop, Loops, Nest, Piece, Pieces, Side};
use affine_forms::Form;
use toy_imp::{Block, Expr, Name, Param, Stmt, StmtNode};

/// The shape of a side, none where it is not that of a rule of loops.
#[tactic(auto, unfolding(crate::specs::Sides::side_of))]
pub fn side_of(params: &[Param], b: &Block) -> Option<Side>
    ensures is { result ≡ spec.side_of params.now b.now }
    ensures small { IfSome result IsAffineSide }
{
    match b.stmts.as_slice() {
        [s] => Some(Side::One(nest_of(params, s)?)),
        [s, t] => two_nests(nest_of(params, s), nest_of(params, t)),
        _ => None,
    }
}

#[tactic(auto, unfolding(crate::specs::Sides::two_nests))]
fn two_nests(first: Option<Nest>, second: Option<Nest>) -> Option<Side>
    requires first { IfSome first IsAffineNest }
    requires second { IfSome second IsAffineNest }
    ensures is { result ≡ spec.two_nests first second }
    ensures small { IfSome result IsAffineSide }
{
    match (first, second) {
        (Some(m), Some(n)) => Some(Side::Two(m, n)),
        _ => None,
    }
}

#[tactic(auto, unfolding(crate::specs::Sides::nest_of))]
fn nest_of(params: &[Param], s: &Stmt) -> Option<Nest>
    ensures is { result ≡ spec.nest_of params.now s.now }
    ensures small { IfSome result IsAffineNest }
{
    match &s.node {
        StmtNode::For(x, low, high, b) => {
            let first = loop_of(params, &[], x, low, high)?;
            nest_in(params, first, b)
        }
        _ => None,
    }
}

#[tactic(auto, unfolding(crate::specs::Sides::nest_in))]
fn nest_in(params: &[Param], first: Loop, b: &Block) -> Option<Nest>
    requires { IsAffineLoop first }
    ensures is { result ≡ spec.nest_in params.now first b.now }
    ensures small { IfSome result IsAffineNest }
{
    match b.stmts.as_slice() {
        [] => None,
        [s] => nest_by(params, first, b, s),
        _ => nest_round(params, b, Loops::One(first)),
    }
}

/// The nest by the only statement of its first loop's body.
#[tactic(auto, unfolding(crate::specs::Sides::nest_by))]
fn nest_by(params: &[Param], first: Loop, b: &Block, s: &Stmt) -> Option<Nest>
    requires { IsAffineLoop first }
    ensures is { result ≡ spec.nest_by params.now first b.now s.now }
    ensures small { IfSome result IsAffineNest }
{
    match &s.node {
        StmtNode::For(x, low, high, inside) => {
            let second = loop_of(params, &[first.counter], x, low, high)?;
            let loops = two_loops(first, second)?;
            nest_round(params, inside, loops)
        }
        _ => nest_round(params, b, Loops::One(first)),
    }
}

fn nest_round(params: &[Param], b: &Block, loops: Loops) -> Option<Nest>
    requires { IsAffineLoops loops }
    ensures is { result ≡ spec.nest_round params.now b.now loops }
    ensures small { IfSome result IsAffineNest }
{
    let pieces = match loops {
        Loops::One(a) => pieces_of(params, &[a.counter], b),
        Loops::Two(a, c) => pieces_of(params, &[a.counter, c.counter], b),
    }?;
    Some(Nest { loops, pieces })
}

#[tactic(auto, unfolding(crate::specs::Sides::two_loops))]
fn two_loops(first: Loop, second: Loop) -> Option<Loops>
    requires first { IsAffineLoop first }
    requires second { IsAffineLoop second }
    ensures is { result ≡ spec.two_loops first second }
    ensures small { IfSome result IsAffineLoops }
{
    if first.counter == second.counter {
        None
    } else {
        Some(Loops::Two(first, second))
    }
}

fn loop_of(params: &[Param], counters: &[u32], x: &Name, low: &Expr, high: &Expr) -> Option<Loop>
    requires { length counters.now ≤ 4 }
    ensures is { result ≡ spec.loop_of params.now counters.now x.now low.now high.now }
    ensures small { IfSome result IsAffineLoop }
{
    let low = affine(params, counters, None, low);
    let high = affine(params, counters, None, high);
    loop_with(name_number(params, x), low, high)
}

#[tactic(auto, unfolding(crate::specs::Sides::loop_with))]
fn loop_with(counter: Option<u32>, low: Option<Form>, high: Option<Form>) -> Option<Loop>
    requires low { IfSome low IsAffine }
    requires high { IfSome high IsAffine }
    ensures is { result ≡ spec.loop_with counter low high }
    ensures small { IfSome result IsAffineLoop }
{
    match (counter, low, high) {
        (Some(counter), Some(low), Some(high)) => Some(Loop { counter, low, high }),
        _ => None,
    }
}

/// The number of a name that is a parameter.
#[tactic(auto, unfolding(crate::specs::Sides::name_number))]
fn name_number(params: &[Param], x: &Name) -> Option<u32>
    ensures { result ≡ spec.name_number params.now x.now }
{
    match x {
        Name::Own(_) => None,
        Name::Par(k) => {
            if is_name(params, *k as usize) {
                Some(*k)
            } else {
                None
            }
        }
    }
}

#[tactic(auto, unfolding(crate::specs::Sides::pieces_of))]
fn pieces_of(params: &[Param], counters: &[u32], b: &Block) -> Option<Pieces>
    requires { length counters.now ≤ 4 }
    ensures is { result ≡ spec.pieces_of params.now counters.now b.now }
    ensures small { IfSome result IsAffinePieces }
{
    match b.stmts.as_slice() {
        [s] => Some(Pieces::One(piece_of(params, counters, s)?)),
        [s, t] => two_pieces(piece_of(params, counters, s), piece_of(params, counters, t)),
        _ => None,
    }
}

#[tactic(auto, unfolding(crate::specs::Sides::two_pieces))]
fn two_pieces(first: Option<Piece>, second: Option<Piece>) -> Option<Pieces>
    requires first { IfSome first IsAffinePiece }
    requires second { IfSome second IsAffinePiece }
    ensures is { result ≡ spec.two_pieces first second }
    ensures small { IfSome result IsAffinePieces }
{
    match (first, second) {
        (Some(p), Some(q)) => Some(Pieces::Two(p, q)),
        _ => None,
    }
}

#[tactic(auto, unfolding(crate::specs::Sides::piece_of))]
fn piece_of(params: &[Param], counters: &[u32], s: &Stmt) -> Option<Piece>
    requires { length counters.now ≤ 4 }
    ensures is { result ≡ spec.piece_of params.now counters.now s.now }
    ensures small { IfSome result IsAffinePiece }
{
    match &s.node {
        StmtNode::Let(x, e, b) => {
            let first = let_of(params, counters, None, x, e)?;
            sole_in(params, counters, first, b)
        }
        _ => inner_piece(params, Lets::None, s),
    }
}

#[tactic(auto, unfolding(crate::specs::Sides::sole))]
fn sole_in(params: &[Param], counters: &[u32], first: Let, b: &Block) -> Option<Piece>
    requires counters { length counters.now ≤ 4 }
    requires first { IsAffineLet first }
    ensures is { result ≡ spec.sole (spec.piece_in params.now counters.now first) b.now }
    ensures small { IfSome result IsAffinePiece }
{
    match b.stmts.as_slice() {
        [s] => piece_in(params, counters, first, s),
        _ => None,
    }
}

#[tactic(auto, unfolding(crate::specs::Sides::piece_in))]
fn piece_in(params: &[Param], counters: &[u32], first: Let, s: &Stmt) -> Option<Piece>
    requires counters { length counters.now ≤ 4 }
    requires first { IsAffineLet first }
    ensures is { result ≡ spec.piece_in params.now counters.now first s.now }
    ensures small { IfSome result IsAffinePiece }
{
    match &s.node {
        StmtNode::Let(x, e, b) => {
            let second = let_of(params, counters, Some(first.name), x, e)?;
            sole_inner(params, Lets::Two(first, second), b)
        }
        _ => inner_piece(params, Lets::One(first), s),
    }
}

#[tactic(auto, unfolding(crate::specs::Sides::sole))]
fn sole_inner(params: &[Param], lets: Lets, b: &Block) -> Option<Piece>
    requires { IsAffineLets lets }
    ensures is { result ≡ spec.sole (spec.inner_piece params.now lets) b.now }
    ensures small { IfSome result IsAffinePiece }
{
    match b.stmts.as_slice() {
        [s] => inner_piece(params, lets, s),
        _ => None,
    }
}

#[tactic(auto, unfolding(crate::specs::Sides::inner_piece))]
fn inner_piece(params: &[Param], lets: Lets, s: &Stmt) -> Option<Piece>
    requires { IsAffineLets lets }
    ensures is { result ≡ spec.inner_piece params.now lets s.now }
    ensures small { IfSome result IsAffinePiece }
{
    match &s.node {
        StmtNode::Par(k) => {
            if is_statement(params, *k as usize) {
                Some(Piece {
                    lets,
                    statement: *k,
                })
            } else {
                None
            }
        }
        _ => None,
    }
}

fn let_of(
    params: &[Param],
    counters: &[u32],
    renamed: Option<u32>,
    x: &Name,
    e: &Expr,
) -> Option<Let>
    requires { length counters.now ≤ 4 }
    ensures is { result ≡ spec.let_of params.now counters.now renamed x.now e.now }
    ensures small { IfSome result IsAffineLet }
{
    let_with(name_number(params, x), affine(params, counters, renamed, e))
}

#[tactic(auto, unfolding(crate::specs::Sides::let_with))]
fn let_with(name: Option<u32>, value: Option<Form>) -> Option<Let>
    requires { IfSome value IsAffine }
    ensures is { result ≡ spec.let_with name value }
    ensures small { IfSome result IsAffineLet }
{
    match (name, value) {
        (Some(name), Some(value)) => Some(Let { name, value }),
        _ => None,
    }
}
