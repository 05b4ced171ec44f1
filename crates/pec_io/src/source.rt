//! A source of bytes: what a read gives, and the cause that it has where it fails.

ghost use Rattle.std.specs.Prelude.{ℕ, Option, List};
ghost use Rattle.std.specs.Io.{ReadsAtMost};
ghost use Rattle.std.specs.Io.KnownBytes.{ReadConsumes};
ghost use Rattle.pec_io.specs.Faults.{HasCause};

use super::Failed;

/// Gives bytes in order. `left` are the bytes still to come, where the source tells them;
/// `faults` counts its failures, below 2^64, and never falls.
pub trait Source {
    ghost left: { Self → Option (List ℕ) };

    ghost faults: { Self → ℕ };

    /// Fills a front part of `into` with the next bytes and answers its length. 0 for a slice
    /// that is not empty is the end. A failure takes nothing and raises the count of faults.
    fn read(&mut self, into: &mut [u8]) -> Result<usize, Failed>
        ensures bound { ReadsAtMost result into.new }
        ensures bytes { ReadConsumes (left self.old) (left self.new) result into.new }
        ensures cause { HasCause (faults self.old) (faults self.new) result };
}
