// How the word reader reads.
ghost use Rattle.std.specs.Prelude.{◌≡◌, ◌≤◌, length};
ghost use Rattle.words.specs.Words.{words, cut};
ghost use Rattle.words.specs.Stretches.{OnlyWordsOf};
ghost use Rattle.words.specs.Reading.{left, word, Gives};

use super::{Condition, Reader};
use crate::bytes::{Class, classify};
use crate::word::Word;

impl<'a> Reader<'a> {
    // A reader before the first word of a source.
    #[tactic(auto, using(crate::proofs::Unique::only_words))]
    pub fn new(source: &'a [u8]) -> Reader<'a>
        ensures source { result.source ≡ source.entry }
        ensures reads { left result ≡ words source.now }
        ensures law { OnlyWordsOf source.now (words source.now) }
    {
        Reader { source, at: 0 }
    }

    // The next word, or None where no word is left.
    pub fn next(&mut self) -> Option<Word<'a>>
        ensures source { self.new.source ≡ self.old.source }
        ensures reads { Gives result self.old self.new }
    {
        let end = self.source.len();
        let mut condition = Condition::Between;
        // By place: `enumerate().skip(at)` would go over every byte before it again, and over the rest alone each place would be a sum.
        for here in self.at..end {
            match (condition, classify(self.source[here])) {
                (Condition::Between, Class::Part) => condition = Condition::Inside(here),
                (Condition::Between, Class::Mark) => return Some(self.cut(here, here + 1)),
                (Condition::Between, Class::Separator | Class::Foreign)
                | (Condition::Inside(_), Class::Part) => {}
                (Condition::Inside(from), Class::Mark | Class::Separator | Class::Foreign) => {
                    return Some(self.cut(from, here));
                }
            }
        }
        match condition {
            Condition::Between => {
                self.at = end;
                None
            }
            Condition::Inside(from) => Some(self.cut(from, end)),
        }
    }

    // Cuts the word from one place up to another out of the source, and goes on behind it.
    fn cut(&mut self, from: usize, to: usize) -> Word<'a>
        requires order { from ≤ to }
        requires within { to ≤ length self.old.source.now }
        ensures word { word result ≡ cut self.old.source.now from to }
        ensures source { self.new.source ≡ self.old.source }
        ensures at { self.new.at ≡ to }
    {
        self.at = to;
        Word {
            text: &self.source[from..to],
            place: from,
        }
    }
}
