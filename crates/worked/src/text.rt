//! Lines that the program prints, and parts of them.

ghost use Rattle.std.specs.Prelude.{Some};
ghost use Rattle.choices.specs.Chosen.{brews_of};
ghost use Rattle.worked.specs.Printed.{allotment_line, envy_line, spaced};

use assess::envy::Envy;
use choices::choice::Choice;
use std::fmt;

/// Numbers, each behind a space.
#[derive(Clone, Copy)]
pub struct Spaced<'a>(pub &'a [u8]);

impl fmt::Display for Spaced<'_> {
    ghost output = { λ numbers. Some (spaced numbers.0.now) };

    fn fmt<W: fmt::Write>(&self, f: &mut fmt::Formatter<W>) -> fmt::Result {
        for number in self.0 {
            write!(f, " {number}")?;
        }
        Ok(())
    }
}

/// The brews of a choice, each behind a space.
// Not `Spaced`: a choice has no slice of its brews.
#[derive(Clone, Copy)]
pub struct Opened<'a>(pub &'a Choice);

impl fmt::Display for Opened<'_> {
    ghost output = { λ opened. Some (spaced (brews_of opened.0.now)) };

    #[tactic(auto, using(crate::proofs::Spacing::writing))]
    fn fmt<W: fmt::Write>(&self, f: &mut fmt::Formatter<W>) -> fmt::Result {
        // Brews are numbers: the choice is asked for each.
        for brew in 1..=self.0.figures().brews() {
            if self.0.has(brew) {
                write!(f, " {brew}")?;
            }
        }
        Ok(())
    }
}

/// The line of an allotment.
#[derive(Clone, Copy)]
pub struct AllotmentLine<'a>(pub &'a [u8]);

impl fmt::Display for AllotmentLine<'_> {
    ghost output = { λ line. Some (allotment_line line.0.now) };

    fn fmt<W: fmt::Write>(&self, f: &mut fmt::Formatter<W>) -> fmt::Result {
        let brews = Spaced(self.0);
        write!(f, "allotment{brews}")
    }
}

/// The line of a just envy.
#[derive(Clone, Copy)]
pub struct EnvyLine(pub Envy);

impl fmt::Display for EnvyLine {
    ghost output = { λ line. Some (envy_line line.0) };

    fn fmt<W: fmt::Write>(&self, f: &mut fmt::Formatter<W>) -> fmt::Result {
        let Envy { taker, brew, rival } = self.0;
        write!(f, "envy taker {taker} brew {brew} rival {rival}")
    }
}
