//! A source over bytes in memory that never fails.
//! A contract sees it as the bytes that it has left.

ghost use Rattle.std.specs.Prelude.{◌≡◌, ◌≤◌, ℕ, List, Some, IfOk, IsOk, length, drop, min};
ghost use Rattle.std.specs.Io.{ReadsAtMost};
ghost use Rattle.std.specs.Io.KnownBytes.{ReadConsumes};
ghost use Rattle.pec_io.specs.Faults.{HasCause};
ghost use Rattle.pec_io.specs.Steady.{left_after};

use super::{Failed, Source};
use std::marker::Model;

/// Gives the bytes that it was made of, as many a read as there is place for. It tells what is left.
#[derive(Drop)]
pub struct SteadySource {
    bytes: Vec<u8>,
    at: usize,
}

impl Model for SteadySource {
    ghost use Rattle.std.specs.Prelude.{ℕ, List, ◌≤◌, drop, vec_len};

    ghost Value = { List ℕ };

    ghost view = { λ s. drop s.at s.bytes.items };

    ghost invariant = { λ s. s.at ≤ vec_len s.bytes };
}

impl SteadySource {
    /// A source of these bytes. Takes no memory.
    pub fn new(bytes: Vec<u8>) -> SteadySource
        ensures { result ≡ bytes.items }
    {
        SteadySource { bytes, at: 0 }
    }

    /// The bytes that are still to come.
    pub fn left(&self) -> &[u8]
        ensures { result.now ≡ self.now }
    {
        &self.bytes[self.at..]
    }
}

impl Source for SteadySource {
    ghost left = { λ s. Some s };

    ghost faults = { λ _. 0 };

    /// Takes no memory.
    fn read(&mut self, into: &mut [u8]) -> Result<usize, Failed>
        ensures bound { ReadsAtMost result into.new }
        ensures bytes { ReadConsumes (Some self.old) (Some self.new) result into.new }
        ensures cause { HasCause 0 0 result }

        ensures steady { IsOk result }
        ensures count { IfOk result (λ n. n ≡ min (length into.old) (length self.old)) }
        ensures after { self.new ≡ left_after self.old result }
        ensures beyond { IfOk result (λ n. drop n into.new ≡ drop n into.old) }
    {
        let count = into.len().min(self.bytes.len() - self.at);
        into[..count].copy_from_slice(&self.bytes[self.at..self.at + count]);
        self.at += count;
        Ok(count)
    }
}
