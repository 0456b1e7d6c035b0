//! Why an element is refused.

ghost use Rattle.line.specs.Fault.{line_refusal};

use refusal::{Fault, Refusal};

/// Why an element is refused.
#[derive(Clone, Copy, PartialEq, Eq, Debug)]
pub enum LineFault {
    /// Every place of the slice is taken.
    Full { capacity: usize },
}

/// It is told with how many places the full slice has.
impl Fault for LineFault {
    ghost refusal = { line_refusal };

    fn refusal(&self) -> Refusal {
        match *self {
            LineFault::Full { capacity } => Refusal::new(21, capacity),
        }
    }
}
