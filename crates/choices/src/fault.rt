//! Why a choice is refused.

ghost use Rattle.choices.specs.Faults.{choice_refusal};

use refusal::{Fault, Refusal};

/// What is wrong with a list of the brews to open. Entries are counted from 1.
#[derive(Clone, Copy, PartialEq, Eq, Debug)]
pub enum ChoiceFault {
    /// The list has not as many entries as brews are to be opened.
    Length,
    /// The entry is no brew of the round, or repeats an earlier one.
    Entry { entry: usize },
}

/// It is told with the entry, or 0.
impl Fault for ChoiceFault {
    ghost refusal = { choice_refusal };

    fn refusal(&self) -> Refusal {
        let place = match *self {
            ChoiceFault::Length => 0,
            ChoiceFault::Entry { entry } => entry,
        };
        Refusal::new(8, place)
    }
}
