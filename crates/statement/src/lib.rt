//! The statement of a month: a month file is read, settled and printed, or refused in one line.
#![tactic(auto)]

mod closed_month;
pub mod fault;
pub mod job;
mod labels;
pub mod line;
mod month;
pub mod no_statement;
mod reader;
mod records;
mod roster;
pub mod rows;

pub use fault::{Located, ReaderFault, StatementFault};
pub use job::settle_file;
pub use line::PrintedLine;
pub use no_statement::NoStatement;
pub use rows::refusal_row;
