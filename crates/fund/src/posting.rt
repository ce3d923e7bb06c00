//! A posting as a journal's place holds it, and the amount that it tells.
ghost use Rattle.fund.specs.Postings.{counted};

use crate::total::TellsAmount;
use pools::Pool;

/// Which way an amount goes.
#[derive(Clone, Copy, PartialEq, Eq, Debug)]
pub enum Direction {
    /// Into the pool.
    In,
    /// Out of the pool.
    Out,
}

/// One direction of one pool: what a posting is made on, and what postings are totalled by.
#[derive(Clone, Copy, PartialEq, Eq, Debug)]
pub struct Side {
    /// The pool whose money it is.
    pub pool: Pool,
    /// Into the pool or out of it.
    pub direction: Direction,
}

/// An amount that came into a pool or went out of it.
#[derive(Clone, Copy, PartialEq, Eq, Debug)]
pub struct Posting {
    /// The pool and the direction.
    pub side: Side,
    /// Cents; in a journal at most `LIMIT`.
    pub amount: u64,
}

impl Posting {
    /// What a list of places may be filled with before it is handed to a journal, which empties it: any posting would do.
    pub const BLANK: Posting = Posting {
        side: Side {
            pool: Pool::Generic,
            direction: Direction::In,
        },
        amount: 0,
    };
}

impl TellsAmount for Posting {
    type Selection = Side;

    ghost told = { counted };

    fn amount(&self, selection: Side) -> u64 {
        if self.side == selection {
            self.amount
        } else {
            0
        }
    }
}
