//! Tests of the libraries through their public calls: published figures, and limits at their edges.
#![tactic(auto)]

#[cfg(test)]
mod assessments;
#[cfg(test)]
mod books;
#[cfg(test)]
mod settlements;
#[cfg(test)]
mod statements;
