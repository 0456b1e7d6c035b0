//! Why no allotment is written.

/// Why no allotment is written.
#[derive(Clone, Copy, PartialEq, Eq, Debug)]
pub enum AllotFault {
    /// The books are not complete for the figures of the choice.
    Incomplete,
    /// The list has another length than there are takers.
    Length,
}
