//! The error of a conversion that is given a number outside the limits.
use thiserror::Error;

/// A number outside the limits of the conversion that it was given to. The field is that number.
#[derive(Clone, Copy, PartialEq, Eq, Debug, Drop, Error)]
#[error("{0} is outside the limits")]
pub struct OutOfRange(pub u32);
