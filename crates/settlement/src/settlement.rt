//! A settlement: a fund book, two availability rules, and where it stands among its months.
use crate::stage::Stage;
use assessment::{AvailabilityRule, RulePair};
use fund::FundBook;
use pools::PerPool;

/// The months of the two pools, settled one after the other over one book and by one pair of rules. It keeps no tables: these
/// are handed in with each call.
#[derive(Drop)]
pub struct Settlement<B: FundBook, G: AvailabilityRule, F: AvailabilityRule> {
    /// The book that holds the money.
    pub(crate) book: B,
    /// The generic and the flexible rule, by which days and lines are worked out.
    pub(crate) rules: RulePair<G, F>,
    /// Each pool's binding balance at the start, in cents, 0 to `fund::LIMIT`.
    pub(crate) opening: PerPool<u64>,
    /// What is open, and what is due.
    pub(crate) stage: Stage,
}
