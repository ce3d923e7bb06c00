//! Scripts of calls: a settlement is driven by them, line by line, and each call made of it is answered.
#![tactic(auto)]

mod answers;
mod books;
mod calls;
mod desk;
mod line_fault;
mod numbers;
mod script;
mod verbs;

pub use line_fault::{LineFault, Stop};
pub use script::run_script;
