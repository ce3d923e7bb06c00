//! The letter of each line state.
ghost use Rattle.std.specs.Prelude.{◌≡◌, ◌∷◌, [], Some};
ghost use Rattle.assessment.specs.Lines.{letter};

use crate::line::LineState;
use std::fmt;

impl LineState {
    /// The state's letter in print, an ASCII byte: E, C, N or P.
    pub fn letter(self) -> u8
        ensures { result ≡ letter self }
    {
        match self {
            LineState::Empty => b'E',
            LineState::Charged => b'C',
            LineState::Neutral => b'N',
            LineState::Paid => b'P',
        }
    }
}

impl fmt::Display for LineState {
    ghost output = { λ s. Some (letter s ∷ []) };

    fn fmt<W: fmt::Write>(&self, f: &mut fmt::Formatter<W>) -> fmt::Result {
        f.write_char(char::from(self.letter()))
    }
}
