//! Certificates as text: the body of a `cert` section is read as a certificate, and a certificate is printed.
//! `specs/SectionText.antt` says which certificate a body spells, and what canonical text is.
#![tactic(auto)]

mod certificate;
mod certificate_reading;
mod certificate_writing;
mod entry_reading;
mod head;
pub mod laws;

pub use certificate::{put_certificate, read_certificate};
