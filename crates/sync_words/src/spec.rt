//! What a link is: its spec.
ghost use Rattle.std.specs.Prelude.{◌≡◌};
ghost use Rattle.sync_words.specs.Words.{has_place, is_dialled, is_listening, is_spec, is_std};

/// Whether a word is the spec of a link: `std`, or a kind, a colon and a place.
pub fn is_spec(word: &str) -> bool
    ensures { result ≡ is_spec word.now }
{
    is_std(word) || is_dialled(word) || is_listening(word)
}

/// Whether a link of this spec is over the standard input and output.
pub fn is_std(word: &str) -> bool
    ensures { result ≡ is_std word.now }
{
    word == "std"
}

/// Whether a link of this spec is dialled: the peer is the one who listens.
pub fn is_dialled(word: &str) -> bool
    ensures { result ≡ is_dialled word.now }
{
    has_place("tcp:", word) || has_place("unix:", word)
}

// Whether a link of this spec waits for a peer that dials.
fn is_listening(word: &str) -> bool
    ensures { result ≡ is_listening word.now }
{
    has_place("listen:", word) || has_place("unixlisten:", word)
}

// Whether a word is this kind and, behind it, a place of one byte at least.
fn has_place(kind: &str, word: &str) -> bool
    ensures { result ≡ has_place kind.now word.now }
{
    word.as_bytes().starts_with(kind.as_bytes()) && kind.len() < word.len()
}
