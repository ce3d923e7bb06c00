//! The settlement of the two pools' months over any fund book and any two availability rules.
#![tactic(auto)]

pub mod amounts;
mod checks;
mod closes;
pub mod fault;
pub mod known;
mod labels;
pub mod lookups;
mod opens;
mod pays;
mod postings;
pub mod price;
mod records;
mod releases;
pub mod settlement;
pub mod stage;
pub mod tables;
mod workings;

pub use amounts::{LineAmount, LoadAmount};
pub use fault::{FaultPlace, ResourceDay, SettlementFault};
pub use known::rate_for_three_lines;
pub use lookups::PoolAccount;
pub use price::{Price, Rate};
pub use settlement::Settlement;
pub use stage::{OpenMonth, Stage};
pub use tables::{
    LINES, LineEntry, LoadEntry, MonthTerms, PoolClose, RosterEntry, SubmittedDay, pool_at,
};
