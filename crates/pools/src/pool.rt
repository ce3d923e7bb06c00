//! The two pools, and how they are printed.
ghost use Rattle.std.specs.Prelude.{◌≡◌, ◌∷◌, [], Some};
ghost use Rattle.pools.specs.Names.{pool_letter};

use std::fmt;

/// One of the two kinds of capacity. Each is shown, assessed, charged and paid apart from the other.
#[derive(Clone, Copy, PartialEq, Eq, Debug)]
pub enum Pool {
    /// Generic capacity.
    Generic,
    /// Flexible capacity, which can follow a changing load.
    Flexible,
}

impl Pool {
    /// Both, in the order in which they are posted and printed.
    pub const ALL: [Pool; 2] = [Pool::Generic, Pool::Flexible];

    /// The pool's letter in print, an ASCII byte: G or F.
    pub fn letter(self) -> u8
        ensures { result ≡ pool_letter self }
    {
        match self {
            Pool::Generic => b'G',
            Pool::Flexible => b'F',
        }
    }
}

impl fmt::Display for Pool {
    ghost output = { λ p. Some (pool_letter p ∷ []) };

    fn fmt<W: fmt::Write>(&self, f: &mut fmt::Formatter<W>) -> fmt::Result {
        f.write_char(char::from(self.letter()))
    }
}
