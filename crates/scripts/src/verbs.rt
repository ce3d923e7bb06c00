//! The names of the calls.
use crate::line_fault::LineFault;
use std::str::FromStr;

/// A call by its name; `Call` says what each does.
#[derive(Clone, Copy, PartialEq, Eq, Debug)]
pub enum Verb {
    /// `start`, with a book.
    Start,
    /// `roster`, with a category for each resource.
    Roster,
    /// `tables`, with 2 numbers.
    Tables,
    /// `row`, with 5 numbers.
    Row,
    /// `open`, with 8 numbers.
    Open,
    /// `record`, with 10 numbers.
    Record,
    /// `close`, alone.
    Close,
    /// `release`, with a number for each load.
    Release,
}

/// The call of this name; any other word is refused.
impl FromStr for Verb {
    type Err = LineFault;

    ghost use Rattle.std.specs.Prelude.{◌≡◌, ◌≢◌, MatchResult};
    ghost use Rattle.scripts.specs.Names.{name_of};
    ghost use Rattle.scripts.specs.declared.verbs.Verb.{Verb};

    ghost from_str_gives = { λ text r. MatchResult r (λ v. text ≡ name_of v) (λ _. (v : Verb) → text ≢ name_of v) };

    fn from_str(word: &str) -> Result<Verb, LineFault> {
        match word {
            "start" => Ok(Verb::Start),
            "roster" => Ok(Verb::Roster),
            "tables" => Ok(Verb::Tables),
            "row" => Ok(Verb::Row),
            "open" => Ok(Verb::Open),
            "record" => Ok(Verb::Record),
            "close" => Ok(Verb::Close),
            "release" => Ok(Verb::Release),
            _ => Err(LineFault::NoSuchCall),
        }
    }
}
