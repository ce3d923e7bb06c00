//! What is put at the end of a line. Each `requires` says that the line has room for it.
ghost use Rattle.std.specs.Prelude.{◌≡◌, ◌+◌, ◌<◌, ◌≤◌, [], ◌∷◌, ◌++◌, length};

use super::{LINE_BYTES, PrintedLine};
use itoa::{Buffer, Integer};

impl PrintedLine {
    /// A line with nothing written.
    pub(crate) fn empty() -> PrintedLine
        ensures { result ≡ [] }
    {
        PrintedLine {
            bytes: [0; LINE_BYTES],
            len: 0,
        }
    }

    /// What is written so far.
    pub fn written(&self) -> &[u8]
        ensures { result.now ≡ self.now }
    {
        &self.bytes[0..self.len]
    }

    /// One byte.
    pub(crate) fn put_byte(&mut self, b: u8)
        requires { length self.old < LINE_BYTES }
        ensures { self.new ≡ self.old ++ b ∷ [] }
    {
        self.bytes[self.len] = b;
        self.len += 1;
    }

    /// Bytes as they are.
    pub(crate) fn put_text(&mut self, more: &[u8])
        requires { length self.old + length more.now ≤ LINE_BYTES }
        ensures { self.new ≡ self.old ++ more.now }
    {
        let end = self.len + more.len();
        self.bytes[self.len..end].copy_from_slice(more);
        self.len = end;
    }

    /// A number in decimal, not padded.
    pub(crate) fn put_decimal<I: Integer>(&mut self, n: I)
        requires { length self.old + I.MAX_STR_LEN ≤ LINE_BYTES }
        ensures puts { self.new ≡ self.old ++ I.text n }
        ensures room { length self.new ≤ length self.old + I.MAX_STR_LEN }
    {
        self.put_text(Buffer::new().format(n).as_bytes());
    }
}
