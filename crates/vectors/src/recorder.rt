//! Keeps what a script's calls print, so that it can be compared.
use std::alloc::Global;
use std::cell::RefCell;
use std::fmt::{Display, Write};
use std::io::{self, ErrorKind};

/// What was printed so far. In a cell, since whoever prints only borrows what it prints to.
#[derive(Drop)]
pub struct Recorder {
    text: RefCell<String>,
}

impl Recorder {
    /// Nothing printed yet.
    pub(crate) fn new(heap: Global) -> Recorder {
        Recorder {
            text: RefCell::new(String::new(heap)),
        }
    }

    /// All that was printed.
    pub(crate) fn into_bytes(self) -> Vec<u8> {
        self.text.into_inner().into_bytes()
    }
}

impl Print for Recorder {
    fn print<D: Display + Drop>(&self, value: D) -> io::Result<()> {
        let mut text = self.text.try_borrow_mut().map_err(|_| ErrorKind::Other)?;
        write!(text, "{value}")?;
        Ok(())
    }

    fn println<D: Display + Drop>(&self, value: D) -> io::Result<()> {
        self.print(value)?;
        self.print('\n')
    }

    fn write_all(&self, _bytes: &[u8]) -> io::Result<()> {
        // A script prints text alone; bytes would have to be kept here too.
        Err(ErrorKind::Unsupported.into())
    }
}
