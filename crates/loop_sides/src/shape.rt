//! The shape of a side of a rule of loops, as data: nests, loops, pieces, and the `let`s of a piece.
//! `specs/Sides.antt` says which block has which shape.

use affine_forms::Form;

/// A `for`: the number of its counter, and its bounds by the counters outside and the symbols.
#[derive(Clone, Copy)]
pub struct Loop {
    pub counter: u32,
    pub low: Form,
    pub high: Form,
}

/// The loops of a nest, outermost first.
#[derive(Clone, Copy)]
pub enum Loops {
    One(Loop),
    Two(Loop, Loop),
}

/// A `let`: the number of its name, and its value by the counters of the nest and the symbols.
#[derive(Clone, Copy)]
pub struct Let {
    pub name: u32,
    pub value: Form,
}

/// The `let`s of a piece, outermost first.
#[derive(Clone, Copy)]
pub enum Lets {
    None,
    One(Let),
    Two(Let, Let),
}

/// A statement parameter, by number, and the `let`s round it.
#[derive(Clone, Copy)]
pub struct Piece {
    pub lets: Lets,
    pub statement: u32,
}

/// The pieces of an innermost body, in order.
#[derive(Clone, Copy)]
pub enum Pieces {
    One(Piece),
    Two(Piece, Piece),
}

/// One or two loops round one or two pieces.
#[derive(Clone, Copy)]
pub struct Nest {
    pub loops: Loops,
    pub pieces: Pieces,
}

/// A side: one nest or two, in order.
#[derive(Clone, Copy)]
pub enum Side {
    One(Nest),
    Two(Nest, Nest),
}
