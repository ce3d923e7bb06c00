//! Decimal words as numbers. A word is named in a fault by its place after the call's name, counted from 1.
ghost use Rattle.std.specs.Prelude.{◌≡◌, ◌<◌, ◌↔◌, IsTrue, true, length, MatchResult};
ghost use Rattle.std.specs.Str.{all_ascii_digits};
ghost use Rattle.scripts.specs.Numbers.{Decimal, number};

use crate::line_fault::LineFault;
use std::alloc::Global;

/// Whether a word is digits alone, at least one.
fn is_digits(word: &str) -> bool
    ensures { IsTrue result ↔ (all_ascii_digits word.now ≡ true) × (0 < length word.now) }
{
    !word.is_empty() && word.bytes().all(|byte| byte.is_ascii_digit())
}

/// The number of the word at this place. Refuses a word that is not of digits alone, or whose number does not fit 64 bits.
pub(crate) fn wide_number(word: &str, at: usize) -> Result<u64, LineFault>
    ensures { MatchResult result (λ n. Decimal 64 word.now × (n ≡ number word.now)) (λ _. Decimal 64 word.now → ⊥) }
{
    // `parse` takes a plus sign too.
    if let [b'+', ..] = word.as_bytes() {
        return Err(LineFault::NoNumber(at));
    }
    // Only a word without a number is read a second time, for why it has none.
    match word.parse() {
        Ok(number) => Ok(number),
        Err(_) if is_digits(word) => Err(LineFault::TooLarge(at)),
        Err(_) => Err(LineFault::NoNumber(at)),
    }
}

/// As `wide_number`, narrowed to 32 bits.
fn short_number(word: &str, at: usize) -> Result<u32, LineFault>
    ensures { MatchResult result (λ n. Decimal 32 word.now × (n ≡ number word.now)) (λ _. Decimal 32 word.now → ⊥) }
{
    u32::try_from(wide_number(word, at)?).map_err(|_| LineFault::TooLarge(at))
}

/// The words as 32-bit numbers. Refuses the first word that is none; fails where memory runs out.
pub(crate) fn short_numbers(heap: Global, words: &[&str]) -> Result<Vec<u32>, LineFault> {
    (1..)
        .zip(words)
        .map(|(at, word)| short_number(word, at))
        .try_collect(heap)
}
