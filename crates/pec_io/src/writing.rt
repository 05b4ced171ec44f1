//! Writing bytes to a sink whole. `write_all` promises that all were appended, or that a write
//! failed and a front part of them was.

ghost use Rattle.std.specs.Prelude.{◌≡◌, ◌-◌, IsOk, OnOk, OnErr, Some, length};
ghost use Rattle.std.specs.Io.KnownBytes.{Appends};
ghost use Rattle.pec_io.specs.Faults.{HasCause};
ghost use Rattle.pec_io.specs.Writing.{HasRoom, AppendsPart};

use super::{Failed, Sink};

/// Appends all of `bytes`. It fails only where a write failed, and then a front part of the bytes
/// was appended; it does not fail where the sink tells a room that holds them. Takes no memory of
/// its own.
pub fn write_all<K: Sink>(sink: &mut K, bytes: &[u8]) -> Result<(), Failed>
    ensures whole { OnOk result (Appends (K.written sink.old) (K.written sink.new) bytes.now) }
    ensures part { OnErr result (AppendsPart (K.written sink.old) (K.written sink.new) bytes.now) }
    ensures cause { HasCause (K.faults sink.old) (K.faults sink.new) result }
    ensures room { HasRoom (K.room sink.old) (length bytes.now) → IsOk result }
{
    let mut sent = 0;
    while sent < bytes.len() {
        sent += sink.write(&bytes[sent..])?;
    }
    Ok(())
}
