// Which requests leave the sessions of a store as they were.
ghost use Rattle.std.specs.Prelude.{◌≡◌, true, not};
ghost use Rattle.node_life.specs.Leaving.{WordsLeave, may_change_sessions};

/// Whether the words of a request are neither those of `compact` nor of `mailbox`. All others leave the
/// sessions of a store as they were.
pub fn leaves_sessions(words: &[u8]) -> bool
    ensures is { result ≡ not (may_change_sessions words.now) }
    ensures leaves { result ≡ true → WordsLeave words.now }
{
    let may = may_change_sessions(words);
    !may
}

// Whether these are the words of `compact` or of `mailbox`.
fn may_change_sessions(words: &[u8]) -> bool
    ensures { result ≡ may_change_sessions words.now }
{
    words.starts_with(b"compact\0") || words.starts_with(b"mailbox\0")
}
