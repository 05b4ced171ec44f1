//! The words of side conditions: their forms, and the regions of `swaps`. They are names to the
//! lexer, and words only in their places. `specs/ConditionReading.antt` says which is which.

ghost use Rattle.std.specs.Prelude.{◌≡◌};
ghost use Rattle.rule_reader.specs.ConditionReading as spec;

use toy_imp::Region;

/// The form of a side condition.
#[derive(Clone, Copy, PartialEq, Eq)]
pub enum Form {
    Two(OfTwo),
    One(OfOne),
    Swaps,
}

/// The forms of two names.
#[derive(Clone, Copy, PartialEq, Eq)]
pub enum OfTwo {
    Keeps,
    Ignores,
    Commutes,
    Distinct,
}

/// The forms of one name.
#[derive(Clone, Copy, PartialEq, Eq)]
pub enum OfOne {
    Positive,
    Constant,
    Quiet,
}

/// The form that a word stands for.
pub fn form_of(word: &[u8]) -> Option<Form>
    ensures { result ≡ spec.form_of word.now }
{
    if word == b"keeps".as_slice() {
        Some(Form::Two(OfTwo::Keeps))
    } else if word == b"ignores".as_slice() {
        Some(Form::Two(OfTwo::Ignores))
    } else if word == b"commutes".as_slice() {
        Some(Form::Two(OfTwo::Commutes))
    } else if word == b"distinct".as_slice() {
        Some(Form::Two(OfTwo::Distinct))
    } else if word == b"positive".as_slice() {
        Some(Form::One(OfOne::Positive))
    } else if word == b"constant".as_slice() {
        Some(Form::One(OfOne::Constant))
    } else if word == b"quiet".as_slice() {
        Some(Form::One(OfOne::Quiet))
    } else if word == b"swaps".as_slice() {
        Some(Form::Swaps)
    } else {
        None
    }
}

/// The region that a word stands for.
pub fn region_of(word: &[u8]) -> Option<Region>
    ensures { result ≡ spec.region_of word.now }
{
    if word == b"distinct".as_slice() {
        Some(Region::Distinct)
    } else if word == b"earlier".as_slice() {
        Some(Region::Earlier)
    } else if word == b"crossing".as_slice() {
        Some(Region::Crossing)
    } else {
        None
    }
}
