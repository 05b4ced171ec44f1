//! Texts of words: the words of certificates, refusals and traces, read as tokens and printed.
//! `specs/Words.antt` says which words a text has and how they are spelled.
#![tactic(auto)]

pub mod laws;
mod text;
mod token;
mod word;

pub use text::{put_text, tokens};
pub use token::{Key, Token};
pub use word::{put_token, token_of};
