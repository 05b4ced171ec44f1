//! A sink into memory that takes whole what it has room for.
//! A contract sees it as a `Tray`.

ghost use Rattle.std.specs.Prelude.{◌≡◌, ◌≤◌, ◌<◌, ◌↔◌, ℕ, List, Some, [], IfOk, IsErr, length};
ghost use Rattle.std.specs.Io.{WritesAtMost};
ghost use Rattle.std.specs.Io.KnownBytes.{WriteAppends};
ghost use Rattle.pec_io.specs.Faults.{HasCause};
ghost use Rattle.pec_io.specs.Steady.{Tray, tray_after};
ghost use Rattle.pec_io.specs.Writing.{TakesWhole};

use super::{Failed, NoMemory, Sink};
use std::alloc::Global;
use std::marker::Model;

/// Holds what was written to it, up to its room. It tells what it holds and its room.
#[derive(Drop)]
pub struct SteadySink {
    bytes: Vec<u8>,
    room: usize,
    faults: u64,
}

impl Model for SteadySink {
    ghost use Rattle.std.specs.Prelude.{◌≤◌, ◌+◌, vec_len, vec_capacity};
    ghost use Rattle.pec_io.specs.Steady.{Tray};

    ghost Value = { Tray };

    ghost view = { λ s. record { written = s.bytes.items; room = s.room; faults = s.faults } };

    ghost invariant = { λ s. vec_len s.bytes + s.room ≤ vec_capacity s.bytes };
}

impl SteadySink {
    /// An empty sink with this room, reserved here once.
    pub fn new(alloc: Global, room: usize) -> Result<SteadySink, NoMemory>
        ensures { IfOk result (λ s. s ≡ record { written = []; room = room; faults = 0 }) }
    {
        let bytes = Vec::with_capacity(alloc, room)?;
        Ok(SteadySink {
            bytes,
            room,
            faults: 0,
        })
    }

    /// What it holds.
    pub fn written(&self) -> &[u8]
        ensures { result.now ≡ self.now.written }
    {
        self.bytes.as_slice()
    }

    /// How many writes have failed.
    pub fn faults(&self) -> u64
        ensures { result ≡ self.now.faults }
    {
        self.faults
    }
}

impl Sink for SteadySink {
    ghost written = { λ s. Some s.written };

    ghost room = { λ s. Some s.room };

    ghost faults = { λ s. s.faults };

    /// Takes a piece whole, or fails where it is longer than the room that is left. Takes no memory.
    fn write(&mut self, piece: &[u8]) -> Result<usize, Failed>
        ensures bound { WritesAtMost result piece.now }
        ensures moves { IfOk result (λ n. 0 < length piece.now → 0 < n) }
        ensures bytes { WriteAppends (Some self.old.written) (Some self.new.written) result piece.now }
        ensures whole { TakesWhole (Some self.old.room) (Some self.new.room) (length piece.now) result }
        ensures cause { HasCause self.old.faults self.new.faults result }

        ensures refused { IsErr result ↔ (self.old.room < length piece.now) }
        ensures after { self.new ≡ tray_after self.old piece.now result }
    {
        if piece.len() > self.room {
            self.faults = self.faults.saturating_add(1);
            return Err(Failed);
        }
        self.bytes.extend_from_slice(piece).unwrap();
        self.room -= piece.len();
        Ok(piece.len())
    }
}
