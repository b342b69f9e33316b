//! The frames of a journal's file.
ghost use Rattle.std.specs.Prelude.{◌≡◌, ◌+◌, ◌<◌, ◌≤◌, drop, length, None, Some, take};
ghost use Rattle.std.specs.Option.{IfSome};
ghost use Rattle.outside.specs.Frames.{frame_at, size_at};
ghost use Rattle.journal_audit.specs.Frames.{IsGateAt};

use outside::{MAX_FRAME, MAX_JOURNAL};

/// What stands at a place of a journal's file.
#[derive(Clone, Copy)]
pub(crate) enum Gate {
    /// No frame, since the gate there is closed.
    Closed,
    /// A frame that is none.
    Broken,
    /// A frame with a payload of this length.
    Open(usize),
}

/// What stands at a place of a file.
pub(crate) fn gate_at(bytes: &[u8], place: usize) -> Gate
    requires { place < MAX_JOURNAL }
    ensures { IsGateAt bytes.now place result }
{
    if place >= bytes.len() {
        return Gate::Broken;
    }
    if bytes[place] != 1 {
        return Gate::Closed;
    }
    let [a, b, c, d, ..] = &bytes[place + 1..] else {
        return Gate::Broken;
    };
    let size = u32::from_be_bytes([*a, *b, *c, *d]);
    let end = place as u64 + 5 + u64::from(size);
    if size == 0 || size > MAX_FRAME || end > bytes.len() as u64 || end + 1 > MAX_JOURNAL {
        return Gate::Broken;
    }
    Gate::Open(size as usize)
}
