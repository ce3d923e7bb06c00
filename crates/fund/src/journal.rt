//! The journal: each posting fills one of the places handed in, until it is ruled off.
ghost use Rattle.std.specs.Prelude.{◌≤◌, vec_items, vec_capacity};
ghost use Rattle.fund.specs.Pages.{PagesSound, pages};

use crate::fault::BookFault;
use crate::posting::Posting;
use thiserror::Error;

pub mod books;

/// The fewest places that a journal can be kept in.
pub const FEWEST_PLACES: usize = 8;

/// The most places that a journal can be kept in.
pub const MOST_PLACES: usize = 65_536;

/// A fund book that keeps its postings. They lie in the places handed in, so that writing one never needs memory. It takes no
/// advisory months.
#[derive(Drop)]
pub struct Journal {
    postings: Vec<Posting>,
    /// How many places were handed in: a Vec may have room for more.
    size: usize,
    ghost sound: { PagesSound (pages (vec_items postings) size) },
    ghost roomy: { size ≤ vec_capacity postings },
}

/// Places that no journal can be kept in, handed back with the fault.
#[derive(PartialEq, Eq, Debug, Drop, Error)]
#[error("{fault}")]
pub struct RefusedPlaces {
    /// Why no journal was made: `UnfitPlaces`.
    pub fault: BookFault,
    /// The places, as they were handed in.
    pub places: Vec<Posting>,
}
