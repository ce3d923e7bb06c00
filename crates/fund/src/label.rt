//! What is told of a fault: its number, the letter of the layer that it comes from, and what it is about.
ghost use Rattle.fund.specs.Faults.{label_words};

use std::fmt;

/// The label of a fault. It is generic in the place: a pool, a resource's day, a byte offset.
#[derive(Clone, Copy, PartialEq, Eq, Debug)]
pub struct Label<P> {
    /// The number of the fault: 30 to 34 of a book, 10 to 20 but for 14 of a settlement, 40, 41 and 43 of what reads a file.
    pub number: u8,
    /// The letter of the layer, B for a book. A char, as `{}` would print a u8 as a number; a statement prints it as one byte.
    pub layer: char,
    /// What the fault is about.
    pub place: P,
}

/// In print: the number, the letter and the place if it has one, parted by spaces.
impl<P: fmt::Display> fmt::Display for Label<Option<P>> {
    ghost output = { λ l. label_words P.output l };

    fn fmt<W: fmt::Write>(&self, f: &mut fmt::Formatter<W>) -> fmt::Result {
        write!(f, "{} {}", self.number, self.layer)?;
        match &self.place {
            Some(place) => write!(f, " {place}"),
            None => Ok(()),
        }
    }
}
