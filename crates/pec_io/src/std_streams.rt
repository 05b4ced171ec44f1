//! The edge to the real streams: adapters over std's readers and writers. They count their
//! failures and tell no content, since no contract can say what a stream gives or takes.

ghost use Rattle.std.specs.Prelude.{◌≡◌, None};

use super::{Failed, Sink, Source};
use std::io::{Read, Write};

/// A source over a reader. Each error of the reader raises the count of faults.
#[derive(Drop)]
pub struct StdSource<R: Read + Drop> {
    from: R,
    pub faults: u64,
}

impl<R: Read + Drop> StdSource<R> {
    /// A source over `from` with no fault yet. Takes no memory.
    pub fn new(from: R) -> StdSource<R>
        ensures { result.faults ≡ 0 }
    {
        StdSource { from, faults: 0 }
    }
}

impl<R: Read + Drop> Source for StdSource<R> {
    ghost left = { λ _. None };

    ghost faults = { λ s. s.faults };

    fn read(&mut self, into: &mut [u8]) -> Result<usize, Failed> {
        match self.from.read(into) {
            Ok(count) => Ok(count),
            Err(_error) => {
                self.faults = self.faults.saturating_add(1);
                Err(Failed)
            }
        }
    }
}

/// A sink over a writer. Each error of the writer, and each write of a piece that takes none of
/// its bytes, raises the count of faults.
#[derive(Drop)]
pub struct StdSink<W: Write + Drop> {
    to: W,
    pub faults: u64,
}

impl<W: Write + Drop> StdSink<W> {
    /// A sink over `to` with no fault yet. Takes no memory.
    pub fn new(to: W) -> StdSink<W>
        ensures { result.faults ≡ 0 }
    {
        StdSink { to, faults: 0 }
    }
}

impl<W: Write + Drop> Sink for StdSink<W> {
    ghost written = { λ _. None };

    ghost room = { λ _. None };

    ghost faults = { λ s. s.faults };

    fn write(&mut self, piece: &[u8]) -> Result<usize, Failed> {
        match self.to.write(piece) {
            Ok(count) if count > 0 || piece.is_empty() => Ok(count),
            _ => {
                self.faults = self.faults.saturating_add(1);
                Err(Failed)
            }
        }
    }
}
