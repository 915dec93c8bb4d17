// The words of a block, read for one axis.
ghost use Rattle.std.specs.Prelude.{◌≡◌};
ghost use Rattle.words.specs.Block.{word_of, pair_of};

use crate::axis::AxisId;
use crate::pair::WordPair;
use crate::word::Word;

#[derive(Clone, Copy)]
pub struct AxisWords<'a> {
    pub words: &'a [u16],
    pub axis: AxisId,
}

impl AxisWords<'_> {
    // The word of that index, or None past the end.
    pub fn word(&self, index: usize) -> Option<Word>
        ensures { result ≡ word_of self.now.words.now self.now.axis index }
    {
        let bits = *self.words.get(index)?;
        Some(Word {
            bits,
            axis: self.axis,
            index,
        })
    }

    // The word of that index and the one behind it, or None unless both are there.
    pub fn pair(&self, index: usize) -> Option<WordPair>
        ensures { result ≡ pair_of self.now.words.now self.now.axis index }
    {
        let first = self.word(index)?;
        let second = self.word(index + 1)?;
        Some(WordPair { first, second })
    }
}
