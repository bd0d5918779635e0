//! Lines of words.

ghost use Rattle.std.specs.Prelude.{◌≡◌, ◌<◌, ◌≤◌, length, Some, slice_get};
ghost use Rattle.qs_deck.specs.Limits.{most_words};
ghost use Rattle.qs_deck.specs.LinesOfWords.{parted, AreEnds};

use qs_tree::Label;
use std::marker::Model;

/// Lines of words, each of 1 to 65,536 words, which are told by their labels. The words stand one behind the other, so
/// that memory is linear in the words.
#[derive(Drop)]
pub struct WordLines {
    words: Vec<Label>,
    // How many words there are up to the end of each line.
    ends: Vec<u32>,
}

impl Model for WordLines {
    ghost use Rattle.std.specs.Prelude.{List, length};
    ghost use Rattle.qs_tree.specs.declared.cell.Label.{Label};
    ghost use Rattle.qs_deck.specs.LinesOfWords.{parted, AreEnds};

    ghost Value = { List (List Label) };

    ghost view = { λ l. parted 0 l.words.items l.ends.items };

    ghost invariant = { λ l. AreEnds 0 l.ends.items (length l.words.items) };
}

impl WordLines {
    /// The lines of these words, which end there.
    pub(crate) fn new(words: Vec<Label>, ends: Vec<u32>) -> WordLines
        requires { AreEnds 0 ends.items (length words.items) }
        ensures { result ≡ parted 0 words.items ends.items }
    {
        WordLines { words, ends }
    }

    /// The number of lines.
    pub fn len(&self) -> usize
        ensures { result ≡ length self.now }
    {
        self.ends.len()
    }

    /// The words of the line with this index.
    pub fn line(&self, index: usize) -> &[Label]
        requires { index < length self.now }
        ensures line { slice_get self.now index ≡ Some result.now }
        ensures some { 0 < length result.now }
        ensures few { length result.now ≤ most_words }
    {
        let end = self.ends[index] as usize;
        let start = if index == 0 {
            0
        } else {
            self.ends[index - 1] as usize
        };
        &self.words[start..end]
    }
}
