//! A printed line: of 96 bytes the first `len` are written, and the others are 0.
//! It takes nothing from the heap, so that a refusal is printed also where no memory is left.
ghost use Rattle.std.specs.Prelude.{◌≡◌, ℕ, ◌≤◌, List, take, slice_index, Some};
ghost use Rattle.statement.specs.declared.line.TheConstants.{LINE_BYTES};

use std::marker::Model;
use std::{fmt, str};

mod puts;

/// How many bytes a line has room for. A number counts as the longest of its type, so a POOL line asks for 91 of them.
pub(crate) const LINE_BYTES: usize = 96;

/// A line as far as it is written. One that is empty prints nothing.
#[derive(Debug, Drop)]
pub struct PrintedLine {
    bytes: [u8; LINE_BYTES],
    len: usize,
}

/// Contracts see the bytes written.
impl Model for PrintedLine {
    ghost Value = { List ℕ };

    ghost view = { λ l. take l.len l.bytes };

    ghost invariant = { λ l. (l.len ≤ LINE_BYTES) × ((k : ℕ) → l.len ≤ k → slice_index l.bytes k ≡ 0) };
}

impl fmt::Display for PrintedLine {
    ghost output = { λ l. Some l };

    fn fmt<W: fmt::Write>(&self, f: &mut fmt::Formatter<W>) -> fmt::Result {
        f.write_str(str::from_utf8(self.written()).map_err(|_| fmt::Error)?)
    }
}
