//! Writing bytes and texts whole.
ghost use Rattle.std.specs.Prelude.{◌≡◌, ℕ, ◌≤◌, OnOk};
ghost use Rattle.std.specs.Io.KnownBytes.{Appends};
ghost use Rattle.outside.specs.Faults.{HasCause};
ghost use Rattle.outside.specs.Streams.{GetsText};

use crate::{Failed, Sink};

/// Writes all bytes, in as many calls as the sink needs. At `Failed` a front of them was written.
pub fn write_all<S: Sink>(sink: &mut S, bytes: &[u8]) -> Result<(), Failed>
    ensures gets { GetsText (S.tells sink.old) (S.tells sink.new) bytes.now }
    ensures ok { OnOk result (Appends (S.tells sink.old).bytes (S.tells sink.new).bytes
        bytes.now) }
    ensures cause { HasCause (S.tells sink.old).faults (S.tells sink.new).faults result }
{
    let mut done = 0;
    'pieces: while done < bytes.len() {
        done += sink.write(&bytes[done..])?;
    }
    Ok(())
}

/// Writes a text, as `write_all` writes its bytes.
pub fn write_text<S: Sink>(sink: &mut S, text: &str) -> Result<(), Failed>
    ensures gets { GetsText (S.tells sink.old) (S.tells sink.new) text.now }
    ensures ok { OnOk result (Appends (S.tells sink.old).bytes (S.tells sink.new).bytes text.now) }
    ensures cause { HasCause (S.tells sink.old).faults (S.tells sink.new).faults result }
{
    write_all(sink, text.as_bytes())
}
