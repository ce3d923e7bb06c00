//! The book that a script starts with: how `start` names it, and the places of a journal.
use crate::line_fault::LineFault;
use crate::numbers::wide_number;
use fund::{MOST_PLACES, Posting};
use std::alloc::{AllocError, Global};

/// How many advisory overlays lie over the book.
#[derive(Clone, Copy, PartialEq, Eq, Debug)]
pub enum Layers {
    /// None.
    Bare,
    /// One.
    Once,
    /// Two, one over the other.
    Twice,
}

/// The book below them.
#[derive(Clone, Copy, PartialEq, Eq, Debug)]
pub enum Ground {
    /// A balance book.
    Balance,
    /// A journal over this many places: any number, as the journal itself refuses one outside its limits (30).
    Journal(u64),
}

/// The book that `start` names.
#[derive(Clone, Copy, PartialEq, Eq, Debug)]
pub struct BookPlan {
    /// Its overlays.
    pub layers: Layers,
    /// The book that they lie over.
    pub ground: Ground,
}

/// The book that the words after `start` name. Refuses words that name none, and a number of places that is no 64-bit decimal number.
pub(crate) fn plan(words: &[&str]) -> Result<BookPlan, LineFault> {
    let (layers, book) = match words {
        ["overlay", "overlay", book @ ..] => (Layers::Twice, book),
        ["overlay", book @ ..] => (Layers::Once, book),
        book => (Layers::Bare, book),
    };
    let ground = match book {
        ["balance"] => Ground::Balance,
        ["journal", places] => Ground::Journal(wide_number(places, words.len())?),
        _ => return Err(LineFault::NoSuchBook),
    };
    Ok(BookPlan { layers, ground })
}

/// Blank places for a journal, as many as asked for, but at most one more than its limit: so a number that is too large
/// is refused by the journal (30), and memory for it is never asked for. Fails where memory runs out.
pub(crate) fn journal_places(heap: Global, places: u64) -> Result<Vec<Posting>, AllocError> {
    let places = usize::try_from(places).unwrap_or(usize::MAX);
    vec![in heap; Posting::BLANK; places.min(MOST_PLACES + 1)]
}
