//! The rules of the two pools, which every assessment asks together.
use crate::flexible_rule::FlexibleRule;
use crate::generic_rule::GenericRule;

/// A rule for each pool, each of its own type. It assesses days and works out a month's lines.
#[derive(Clone, Copy, PartialEq, Eq, Debug, Drop)]
pub struct RulePair<G, F> {
    /// The generic pool's rule; it takes from what the flexible one leaves.
    pub generic: G,
    /// The flexible pool's rule, which takes first.
    pub flexible: F,
}

/// The two rules that ship.
pub const SHIPPED_RULES: RulePair<GenericRule, FlexibleRule> = RulePair {
    generic: GenericRule,
    flexible: FlexibleRule,
};
