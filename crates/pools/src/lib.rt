//! What every layer speaks of: the two pools of resource adequacy capacity, tables with an
//! entry for each, and the error of a number outside the limits.
#![tactic(auto)]

pub mod out_of_range;
pub mod per_pool;
pub mod pool;

pub use out_of_range::OutOfRange;
pub use per_pool::PerPool;
pub use pool::Pool;
