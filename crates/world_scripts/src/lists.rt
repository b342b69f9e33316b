//! The parts of a line that have any number of members.
ghost use Rattle.std.specs.Prelude.{◌≡◌};

use std::marker::Model;

/// Labels of posts. Contracts see the list of the numbers.
#[derive(Debug, Drop)]
pub struct Labels {
    numbers: Vec<u64>,
}

impl Model for Labels {
    ghost use Rattle.std.specs.Prelude.{List, ℕ};

    ghost Value = { List ℕ };

    ghost view = { λ l. l.numbers.items };
}

impl Labels {
    /// These labels. It takes no memory.
    pub fn new(numbers: Vec<u64>) -> Labels
        ensures { result ≡ numbers.items }
    {
        Labels { numbers }
    }

    /// The labels.
    pub fn as_slice(&self) -> &[u64]
        ensures { result.now ≡ self.now }
    {
        self.numbers.as_slice()
    }
}

/// The text of a post. Contracts see its bytes.
#[derive(Debug, Drop)]
pub struct Text {
    bytes: Vec<u8>,
}

impl Model for Text {
    ghost use Rattle.std.specs.Prelude.{List, ℕ};

    ghost Value = { List ℕ };

    ghost view = { λ t. t.bytes.items };
}

impl Text {
    /// These bytes. It takes no memory.
    pub fn new(bytes: Vec<u8>) -> Text
        ensures { result ≡ bytes.items }
    {
        Text { bytes }
    }

    /// The bytes.
    pub fn as_slice(&self) -> &[u8]
        ensures { result.now ≡ self.now }
    {
        self.bytes.as_slice()
    }
}
