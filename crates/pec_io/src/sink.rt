//! A sink for bytes: what a write appends, and the cause that it has where it fails.

ghost use Rattle.std.specs.Prelude.{◌≡◌, ◌<◌, ℕ, Option, List, IfOk, length};
ghost use Rattle.std.specs.Io.{WritesAtMost};
ghost use Rattle.std.specs.Io.KnownBytes.{WriteAppends};
ghost use Rattle.pec_io.specs.Faults.{HasCause};
ghost use Rattle.pec_io.specs.Writing.{TakesWhole};

use super::Failed;

/// Takes bytes in order. `written` are the bytes that it holds and `room` the number of bytes
/// that it surely still takes, each where the sink tells it; `faults` counts its failures,
/// below 2^64, and never falls.
pub trait Sink {
    ghost written: { Self → Option (List ℕ) };

    ghost room: { Self → Option ℕ };

    ghost faults: { Self → ℕ };

    /// Appends a front part of `piece` and answers its length: at least 1 for a piece that is not
    /// empty, and the whole piece where the room that is told holds it. A failure appends nothing
    /// and raises the count of faults.
    fn write(&mut self, piece: &[u8]) -> Result<usize, Failed>
        ensures bound { WritesAtMost result piece.now }
        ensures moves { IfOk result (λ n. 0 < length piece.now → 0 < n) }
        ensures bytes { WriteAppends (written self.old) (written self.new) result piece.now }
        ensures whole { TakesWhole (room self.old) (room self.new) (length piece.now) result }
        ensures cause { HasCause (faults self.old) (faults self.new) result };
}
