// A line of whole numbers out of text.
ghost use Rattle.std.specs.Prelude.{◌≡◌, MatchResult};
ghost use Rattle.fit_line.specs.declared.words.TextFault.TheVariants.{Memory};
ghost use Rattle.fit_line.specs.Words.{LineOf, Blamed};

use std::alloc::{AllocFailed, Global};
use thiserror::Error;

// Why a text is no line of numbers; words are counted from 1.
#[derive(Debug, Drop, Error)]
pub(crate) enum TextFault {
    #[error("word {0} is not a whole number of 64 bits")]
    Word(usize),
    #[error("no memory")]
    Memory,
}

// Written out, since the contract rests on its `from_gives`.
impl From<AllocFailed<i64>> for TextFault {
    ghost from_gives = { λ _ fault. fault ≡ Memory };

    fn from(_e: AllocFailed<i64>) -> TextFault {
        TextFault::Memory
    }
}

// The numbers of a text, its words split at white space.
pub(crate) fn numbers_of(heap: Global, text: &str) -> Result<Vec<i64>, TextFault>
    ensures { MatchResult result (λ v. LineOf text.now v.items) (Blamed text.now) }
{
    let mut numbers = Vec::new(heap);
    for word in text.split_whitespace() {
        let place = numbers.len() + 1;
        let number = word.parse().map_err(|_| TextFault::Word(place))?;
        numbers.push(number)?;
    }
    Ok(numbers)
}
