//! The line of a choice.

ghost use Rattle.std.specs.Prelude.{Some};
ghost use Rattle.choices.specs.Chosen.{brews_of};
ghost use Rattle.choices.specs.Rounds.{figures_of};
ghost use Rattle.worked.specs.Lines.{ChoiceTold, line_bytes};

use crate::text::{Opened, Spaced};
use allot::best::best_fair;
use choices::choice::Choice;
use orders::book::OrderBook;
use orders::limits::MOST;
use std::fmt;

/// The line of a choice and an allotment over it, of which the first places are in use: one for each taker.
#[derive(Drop)]
pub struct ChoiceLine {
    choice: Choice,
    // As wide as the most takers: a line allocates nothing, and cannot fail.
    allotment: [u8; MOST],
}

impl fmt::Display for ChoiceLine {
    ghost output = { λ line. Some (line_bytes line) };

    fn fmt<W: fmt::Write>(&self, f: &mut fmt::Formatter<W>) -> fmt::Result {
        let takers = self.choice.figures().takers();
        let opened = Opened(&self.choice);
        let allotment = Spaced(&self.allotment[..takers]);
        write!(f, "choice{opened} best fair{allotment}")
    }
}

// Not a `Market`: a choice has its own figures.
/// The line of a choice and its best fair allotment; none where the books are not complete.
pub fn choice_line<T: OrderBook, B: OrderBook>(
    takers: &T,
    brews: &B,
    choice: &Choice,
) -> Option<ChoiceLine>
    ensures { ChoiceTold (figures_of choice.now.figures) (T.meaning takers.now) (B.meaning brews.now) (brews_of choice.now) result }
{
    let mut allotment = [0; MOST];
    let places = &mut allotment[..choice.figures().takers()];
    best_fair(takers, brews, choice, places).ok()?;
    Some(ChoiceLine {
        choice: *choice,
        allotment,
    })
}
