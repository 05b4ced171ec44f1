//! The tokens of rules and programs: names, reserved words, numerals and signs.
//! When bytes spell them is said in specs/Spelling.antt; the lexer reads them.

use sqlite_items::Items;

/// A token of a rule or a program.
#[derive(Debug, Drop)]
pub enum Token {
    /// A letter and then letters, digits and `_`, at most 32 bytes, and no reserved word.
    Name(Items<u8>),
    /// A reserved word.
    Word(Word),
    /// `0`, or digits of which the first is not 0.
    Number(Numeral),
    /// A sign of one byte or two.
    Sign(Sign),
}

/// The number that digits stand for, in base ten.
#[derive(Clone, Copy, Debug, PartialEq, Eq)]
pub enum Numeral {
    /// A number below 2^63.
    Value(u64),
    /// A number of 2^63 or more.
    Wide,
}

/// The reserved words: none of them is a name.
#[derive(Clone, Copy, Debug, PartialEq, Eq)]
pub enum Word {
    Skip,
    Assert,
    If,
    Else,
    While,
    For,
    To,
    Let,
    Not,
    And,
    Or,
    End,
    Left,
    Right,
    Given,
    Method,
    Cuts,
    None,
    Name,
    Expr,
    Test,
    Stmt,
}

/// The signs.
#[derive(Clone, Copy, Debug, PartialEq, Eq)]
pub enum Sign {
    /// `{`
    OpenBrace,
    /// `}`
    CloseBrace,
    /// `(`
    OpenParen,
    /// `)`
    CloseParen,
    /// `[`
    OpenBracket,
    /// `]`
    CloseBracket,
    /// `;`
    Semicolon,
    /// `,`
    Comma,
    /// `:=`
    Assign,
    /// `=`
    Equals,
    /// `+`
    Plus,
    /// `-`
    Minus,
    /// `*`
    Star,
    /// `<`
    Less,
    /// `<=`
    LessEq,
    /// `==`
    DoubleEquals,
}
