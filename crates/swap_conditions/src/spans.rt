//! How far the places of a name are from a counter: what is known of those that a walk has passed.
//! `specs/Spanning.antt` says what each answer is, `specs/Placing.antt` what a distance is.

ghost use Rattle.std.specs.Prelude.{◌≡◌, bytes_eq};
ghost use Rattle.toy_imp.specs.Cell.{spelled};
ghost use Rattle.toy_imp.specs.ExprView.{exprs_of};
ghost use Rattle.swap_conditions.specs.Placing.{distance};
ghost use Rattle.swap_conditions.specs.Spanning as spec;

use side_conditions::offset_of;
use toy_imp::{Expr, Name};

/// The distances of the places that were passed.
#[derive(Clone, Copy)]
pub(crate) enum Span {
    /// No place was passed.
    Nowhere,
    /// Each place has a distance; these are the least and the greatest.
    Between(i128, i128),
    /// A place has none.
    Elsewhere,
}

/// Which places are asked of, and which index of theirs.
#[derive(Clone, Copy)]
pub(crate) struct Asked<'a> {
    /// The places' name, by its bytes.
    pub name: &'a [u8],
    /// The counter from which they are so far, by the bytes of its name.
    pub counter: &'a [u8],
    /// How many indices each of them is to have.
    pub count: usize,
    /// The position of the index.
    pub position: usize,
}

impl Span {
    /// .. and of a place more.
    pub(crate) fn with(self, distance: Option<i128>) -> Span
        ensures { result ≡ spec.span_with self distance }
    {
        match (self, distance) {
            (Span::Nowhere, Some(c)) => Span::Between(c, c),
            (Span::Nowhere, None) => Span::Elsewhere,
            (Span::Between(low, high), Some(c)) => Span::Between(lesser(low, c), greater(high, c)),
            (Span::Between(_, _), None) => Span::Elsewhere,
            (Span::Elsewhere, _) => Span::Elsewhere,
        }
    }

    /// Whether all of them are this one.
    pub(crate) fn is_at(self, c: i128) -> bool
        ensures { result ≡ spec.is_at self c }
    {
        match self {
            Span::Nowhere => true,
            Span::Between(low, high) => c <= low && high <= c,
            Span::Elsewhere => false,
        }
    }

    /// Whether each of them is at least each of the other ones.
    pub(crate) fn is_above(self, other: Span) -> bool
        ensures { result ≡ spec.is_above self other }
    {
        match (self, other) {
            (Span::Nowhere, _) => true,
            (_, Span::Nowhere) => true,
            (Span::Between(low, _), Span::Between(_, greatest)) => greatest <= low,
            (Span::Between(_, _), Span::Elsewhere) => false,
            (Span::Elsewhere, _) => false,
        }
    }
}

fn lesser(a: i128, b: i128) -> i128
    ensures { result ≡ spec.lesser a b }
{
    if a <= b { a } else { b }
}

fn greater(a: i128, b: i128) -> i128
    ensures { result ≡ spec.greater a b }
{
    if a <= b { b } else { a }
}

impl<'a> Asked<'a> {
    /// What is known with a place of this name and these indices.
    pub(crate) fn passed(self, x: &Name, indices: &[Expr], before: Span) -> Span
        ensures { result ≡ spec.passed self.entry x.now (exprs_of indices.now) before }
    {
        if bytes_of(x) == self.name {
            before.with(self.distance(indices))
        } else {
            before
        }
    }

    /// How far a place with these indices is from the counter.
    pub(crate) fn distance(self, indices: &[Expr]) -> Option<i128>
        ensures { let q = self.entry in
            result ≡ distance q.counter.now q.count q.position (exprs_of indices.now) }
    {
        if indices.len() != self.count {
            return None;
        }
        if self.position >= indices.len() {
            return None;
        }
        offset_of(self.counter, &indices[self.position])
    }
}

/// The bytes of a name; a parameter has none.
pub(crate) fn bytes_of(x: &Name) -> &[u8]
    ensures { result.now ≡ spelled x.now }
{
    match x {
        Name::Own(own) => own.as_slice(),
        Name::Par(_) => &[],
    }
}
