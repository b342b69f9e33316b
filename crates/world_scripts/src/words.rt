// The words of a line, one behind the other.
ghost use Rattle.std.specs.Prelude.{◌≡◌, ◌≤◌, IfSome};
ghost use Rattle.std.specs.Option.{option_copied};
ghost use Rattle.sync_words.specs.Words.{level_in, mode_in, number_in};
ghost use Rattle.world_scripts.specs.Answers.{ReadsValue, ReadsLineText};
ghost use Rattle.world_scripts.specs.Forms.{device_in, kind_in, some_bytes};
ghost use Rattle.world_scripts.specs.Forms.{number_between, over, pick_in, text_in, word_in};

use crate::cut::cut;
use crate::step::{FEED, MAX_DEVICE, NOTE, THREAD, WorldStep};
use outside::Pick;
use sync_rules::{Level, Mode};
use sync_words::{level, mode, number};

// What is left of a line behind the words that were read; nothing where its last word was. After a
// word that is not of the form asked for nothing is said of it.
#[derive(Drop)]
pub(crate) struct Words<'a> {
    pub(crate) left: Option<&'a str>,
}

impl<'a> Words<'a> {
    #[tactic(auto, unfolding(crate::specs::Forms::word_in))]
    pub(crate) fn word(&mut self) -> Option<&'a str>
        ensures { ReadsLineText (word_in Some) (option_copied self.old.left) result
            (option_copied self.new.left) }
    {
        let text = self.left?;
        let (word, left) = cut(text, ' ');
        self.left = left;
        Some(word)
    }

    pub(crate) fn number(&mut self, least: u64, most: u64) -> Option<u64>
        ensures read { ReadsValue (word_in (number_between least most)) (option_copied self.old.left)
            result (option_copied self.new.left) }
        ensures most { IfSome result (λ n. n ≤ most) }
    {
        let n = number(self.word()?, most)?;
        (n >= least).then_some(n)
    }

    pub(crate) fn device(&mut self) -> Option<u8>
        ensures { ReadsValue (word_in device_in) (option_copied self.old.left) result
            (option_copied self.new.left) }
    {
        Some(self.number(0, MAX_DEVICE)? as u8)
    }

    pub(crate) fn level(&mut self) -> Option<Level>
        ensures { ReadsValue (word_in level_in) (option_copied self.old.left) result
            (option_copied self.new.left) }
    {
        level(self.word()?)
    }

    pub(crate) fn mode(&mut self) -> Option<Mode>
        ensures { ReadsValue (word_in mode_in) (option_copied self.old.left) result
            (option_copied self.new.left) }
    {
        mode(self.word()?)
    }

    pub(crate) fn kind(&mut self) -> Option<u8>
        ensures { ReadsValue (word_in kind_in) (option_copied self.old.left) result
            (option_copied self.new.left) }
    {
        kind(self.word()?)
    }

    pub(crate) fn pick(&mut self) -> Option<Pick>
        ensures { ReadsValue (word_in pick_in) (option_copied self.old.left) result
            (option_copied self.new.left) }
    {
        pick(self.word()?)
    }

    pub(crate) fn descriptor(&mut self) -> Option<&'a str>
        ensures { ReadsLineText (word_in some_bytes) (option_copied self.old.left) result
            (option_copied self.new.left) }
    {
        let word = self.word()?;
        if word.is_empty() {
            return None;
        }
        Some(word)
    }

    // All that is left, at least one byte.
    pub(crate) fn text(&self) -> Option<&'a str>
        ensures { option_copied result ≡ text_in (option_copied self.now.left) }
    {
        match self.left {
            Some(text) if !text.is_empty() => Some(text),
            _ => None,
        }
    }

    // The step, where nothing is left.
    pub(crate) fn ended(&self, step: WorldStep) -> Option<WorldStep>
        ensures { result ≡ over step (option_copied self.now.left) }
    {
        if self.left.is_some() {
            return None;
        }
        Some(step)
    }
}

fn kind(word: &str) -> Option<u8>
    ensures { result ≡ kind_in word.now }
{
    match word {
        "note" => Some(NOTE),
        "thread" => Some(THREAD),
        "feed" => Some(FEED),
        _ => None,
    }
}

fn pick(word: &str) -> Option<Pick>
    ensures { result ≡ pick_in word.now }
{
    match word {
        "old" => Some(Pick::Old),
        "new" => Some(Pick::New),
        "zero" => Some(Pick::Zero),
        "ones" => Some(Pick::Ones),
        _ => None,
    }
}
