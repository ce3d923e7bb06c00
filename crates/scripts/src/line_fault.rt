//! What is wrong with a line of the script, and what ends the program.
use std::alloc::AllocError;
use std::io;
use thiserror::Error;

/// Why a line of the script is not followed.
#[derive(Debug, Drop, Error)]
pub enum LineFault {
    /// The first word is no call's name.
    #[error("there is no such call")]
    NoSuchCall,
    /// The script's first call is not `start`.
    #[error("the first call is start")]
    StartComesFirst,
    /// A `start` after the first call.
    #[error("start comes once, as the first call")]
    StartComesOnce,
    /// The words after `start` name no book, or more than two overlays.
    #[error("a book is balance or journal N, under overlay once or twice")]
    NoSuchBook,
    /// The word at this place after the call's name, counted from 1, is not of digits alone.
    #[error("word {0} after the name is no decimal number")]
    NoNumber(usize),
    /// The number of the word at this place, counted likewise, does not fit 32 bits, or 64 where it is a load or counts a journal's places.
    #[error("word {0} after the name is too large")]
    TooLarge(usize),
    /// The line has more or fewer numbers than the call takes, which are this many.
    #[error("the call takes {0} numbers")]
    WrongCount(usize),
    /// `row` names a place past the day table.
    #[error("the day table has no such place")]
    NoSuchPlace,
    /// Memory ran out while the call was read or made.
    #[error("no memory is left")]
    NoMemory(#[from(alloc)] AllocError),
    /// The answer cannot be written.
    #[error(transparent)]
    Output(#[from] io::Error),
}

/// What ends the program with status 1.
#[derive(Debug, Drop, Error)]
pub enum Stop {
    /// The script cannot be read, or is not UTF-8.
    #[error(transparent)]
    Input(#[from] io::Error),
    /// Memory ran out while the script was parted into lines.
    #[error("out of memory")]
    NoMemory(#[from(alloc)] AllocError),
    /// A line, by its number from 1 over all lines, and why it is not followed.
    #[error("line {0}: {1}")]
    Line(usize, LineFault),
}
