//! Reading a source to its end. `read_all` promises all bytes that the source had left, or says
//! why not: a fault of the source, more bytes than the limit, or want of memory.

ghost use Rattle.std.specs.Prelude.{◌≡◌, ◌≢◌, ◌≤◌, ◌+◌, ◌↔◌, IfOk, IfSome, length};
ghost use Rattle.std.specs.Io.KnownBytes.{Consumes, IsAtEnd};
ghost use Rattle.pec_io.specs.Faults.{Rose};
ghost use Rattle.pec_io.specs.Reading.{TakesFront, taken_count};
ghost use Rattle.pec_io.specs.declared.reading.ReadRefusal.TheVariants.{Fault, NoMemory as OutOfMemory};

use super::{Failed, Source};
use std::alloc::{AllocError, Global};
use thiserror::Error;

/// Why a source was not read to its end.
#[derive(Clone, Copy, Debug, PartialEq, Eq, Error)]
pub enum ReadRefusal {
    /// A read failed: the source's count of faults rose.
    #[error("a read failed")]
    Fault,
    /// The source gave one byte more than the limit.
    #[error("more bytes than the limit")]
    Large,
    /// There was not enough memory.
    #[error("not enough memory")]
    NoMemory,
}

impl From<Failed> for ReadRefusal {
    ghost from_gives = { λ _ refusal. refusal ≡ Fault };

    fn from(_failed: Failed) -> ReadRefusal {
        ReadRefusal::Fault
    }
}

impl From<AllocError> for ReadRefusal {
    ghost from_gives = { λ _ refusal. refusal ≡ OutOfMemory };

    fn from(_error: AllocError) -> ReadRefusal {
        ReadRefusal::NoMemory
    }
}

/// The greatest number of bytes that one read is asked for.
const PIECE: usize = 16_384;

/// All bytes that the source has left, at most `most` of them.
///
/// It refuses by `Fault` where a read failed, by `Large` exactly where `most + 1` bytes were
/// taken, and by `NoMemory`. What was taken stays taken, and no fault is passed over.
pub fn read_all<S: Source>(
    alloc: Global,
    source: &mut S,
    most: usize,
) -> Result<Vec<u8>, ReadRefusal>
    ensures all { IfOk result (λ bytes. Consumes (S.left source.old) (S.left source.new) bytes.items) }
    ensures to_the_end { IfOk result (λ bytes. IsAtEnd (S.left source.new) × (length bytes.items ≤ most)) }

    ensures front { TakesFront (S.left source.old) (S.left source.new) }
    ensures within { IfSome (taken_count (S.left source.old) (S.left source.new)) (λ count. count ≤ most + 1) }
    ensures large { IfSome (taken_count (S.left source.old) (S.left source.new)) (λ count.
        (result ≡ Err ReadRefusal.Large) ↔ (count ≡ most + 1)) }

    ensures fault { result ≡ Err ReadRefusal.Fault → Rose (S.faults source.old) (S.faults source.new) }
    ensures none_passed_over { result ≢ Err ReadRefusal.Fault → S.faults source.new ≡ S.faults source.old }
    ensures later { S.faults source.old ≤ S.faults source.new }
{
    let mut all = Vec::new(alloc);
    let mut piece = [0; PIECE];
    loop {
        let room = most - all.len();
        let asked = room.min(PIECE - 1) + 1;
        let count = source.read(&mut piece[..asked])?;
        if count == 0 {
            return Ok(all);
        }
        if count > room {
            return Err(ReadRefusal::Large);
        }
        all.extend_from_slice(&piece[..count])?;
    }
}
