//! The money of the two pools: fund books, and one function that totals amounts.
#![tactic(auto)]

mod balance;
pub mod balance_book;
pub mod book;
pub mod every_book;
pub mod fault;
pub mod journal;
pub mod label;
pub mod overlay;
pub mod posting;
pub mod standing;
pub mod total;

pub use balance_book::BalanceBook;
pub use book::{FundBook, LIMIT};
pub use every_book::{Account, account_of, make_room};
pub use fault::BookFault;
pub use journal::{FEWEST_PLACES, Journal, MOST_PLACES, RefusedPlaces};
pub use label::Label;
pub use overlay::Overlay;
pub use posting::{Direction, Posting, Side};
pub use standing::Standing;
pub use total::TellsAmount;
