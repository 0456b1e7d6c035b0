//! The number and the place by which a refusal is told.
#![tactic(auto)]

ghost use Rattle.std.specs.Prelude.{◌≡◌, Some};
ghost use Rattle.refusal.specs.declared.Refusal.{Refusal};
ghost use Rattle.refusal.specs.Told.{refusal_text, told};

use std::fmt;

/// What a refusal tells.
// Numbers, and 0 for no place: they are those of the table of refusals, and are printed.
#[derive(Clone, Copy, PartialEq, Eq, Debug)]
pub struct Refusal {
    /// Which of the refusals it is.
    pub number: u8,
    /// Where the reason stands, or 0.
    pub place: usize,
}

impl Refusal {
    /// The refusal of this number at this place.
    pub const fn new(number: u8, place: usize) -> Refusal
        ensures { result ≡ told number place }
    {
        Refusal { number, place }
    }
}

impl fmt::Display for Refusal {
    ghost output = { λ refusal. Some (refusal_text refusal) };

    fn fmt<W: fmt::Write>(&self, f: &mut fmt::Formatter<W>) -> fmt::Result {
        let Refusal { number, place } = self;
        write!(f, "{number} at {place}")
    }
}

/// A reason for a refusal.
pub trait Fault {
    /// The number and the place of this reason.
    ghost refusal: { Self → Refusal };

    /// The number and the place by which it is told.
    fn refusal(&self) -> Refusal
        ensures { result ≡ refusal self.now };

    /// The number by which it is told.
    final fn number(&self) -> u8
        ensures { result ≡ (refusal self.now).number }
    {
        self.refusal().number
    }

    /// The place by which it is told.
    final fn place(&self) -> usize
        ensures { result ≡ (refusal self.now).place }
    {
        self.refusal().place
    }
}
