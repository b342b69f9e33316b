// Cutting a script into lines, and a text at a character.
ghost use Rattle.std.specs.Prelude.{◌≡◌, ◌<◌, [], ◌∷◌, length, IfSome, MatchOption, position};
ghost use Rattle.std.specs.Option.{option_copied};
ghost use Rattle.world_scripts.specs.Cuts.{behind, front_of, is_line_feed, lines};

// Where a line ends.
const LINE_FEED: u8 = b'\n';

// Where the first line ends, if in a line feed.
fn line_end(script: &[u8]) -> Option<usize>
    ensures { result ≡ position is_line_feed script.now }
{
    script.iter().position(|byte| *byte == LINE_FEED)
}

// The first line, without its end, and what follows it.
pub(crate) fn cut_line(script: &[u8]) -> Option<(&[u8], &[u8])>
    ensures cut { MatchOption result (lines script.now ≡ [])
        (λ cut. lines script.now ≡ cut.0.now ∷ lines cut.1.now) }
    ensures shorter { IfSome result (λ cut. length cut.1.now < length script.now) }
{
    if script.is_empty() {
        return None;
    }
    match line_end(script) {
        Some(end) => Some((&script[..end], &script[end + 1..])),
        None => Some((script, &script[script.len()..])),
    }
}

// What stands before the first such character, or all, and what stands behind it, if it is there.
pub(crate) fn cut(text: &str, at: char) -> (&str, Option<&str>)
    requires { at < 128 }
    ensures front { result.0.now ≡ front_of at text.now }
    ensures behind { option_copied result.1 ≡ behind at text.now }
    ensures shorter { IfSome result.1 (λ left. length left.now < length text.now) }
{
    match text.split_once(at) {
        Some((front, left)) => (front, Some(left)),
        None => (text, None),
    }
}
