//! The version of the programs, and the line that tells it.
ghost use Rattle.std.specs.Prelude.{◌≡◌, ◌≤◌, length};
ghost use Rattle.sync_words.specs.Versions.{version_text};

use crate::error_lines::ErrorText;

/// The version of the programs of this repository: three numbers, with full stops between them.
pub const VERSION: &str = "0.4.0";

/// The line of the version behind a word, which has at most 32 bytes, as the name of a program. It
/// takes no memory.
pub fn version_line(word: &str) -> ErrorText
    requires { length word.now ≤ 32 }
    ensures { result.bytes ≡ version_text word.now }
{
    let mut line = ErrorText::new();
    line.push_str(word);
    line.push_str(" ");
    line.push_str(VERSION);
    line.push_str("\n");
    line
}
