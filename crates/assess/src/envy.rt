//! Just envies: a taker ranks the brew of a rival above its own, and that brew ranks it above the rival.

ghost use Rattle.std.specs.Prelude.{◌≡◌, ◌+◌, ◌^◌, ◌<◌, ◌≤◌, [], ◌∷◌, ℕ, List, IsTrue};
ghost use Rattle.fair.specs.Allotments.{brew_of};
ghost use Rattle.fair.specs.Markets.{prefers};
ghost use Rattle.choices.specs.Rounds.{figures_of};
ghost use Rattle.assess.specs.EnvyList.{EnviesTold, OffersAll, OffersMore, envies_of, envies_over, envy_over};
ghost use Rattle.assess.specs.Envying.{LowestEnvious, envies_rival};
ghost use Rattle.assess.specs.Markets.{market_in};

use crate::market::Market;
use crate::place::{brew_of, ranks_above};
use line::Line;
use orders::book::OrderBook;

/// A just envy: the taker, the brew and the rival who has it, by number from 1.
#[derive(Clone, Copy, PartialEq, Eq, Debug)]
pub struct Envy {
    pub taker: usize,
    pub brew: usize,
    pub rival: usize,
}

// The line and its slots stay two parameters: the slice is handed to each call of a line.
// The list is a parameter too, as a market is asked of any list; takers and brews are plain numbers, and each function
// asks for their range.
impl<T: OrderBook, B: OrderBook> Market<'_, '_, T, B> {
    /// The lowest taker, by number from 1, that has a just envy.
    pub fn lowest_envious(&self, allotment: &[u8]) -> Option<usize>
        ensures { LowestEnvious (market_in T.meaning B.meaning self.now) allotment.now result }
    {
        let takers = self.figures.takers();
        let mut found = None;
        // Ranges, as the list may be shorter than the takers; the label leaves both loops at the first envy.
        'takers: for taker in 0..takers {
            for rival in 0..takers {
                if self.envies_rival(allotment, taker, rival) {
                    found = Some(number(taker));
                    break 'takers;
                }
            }
        }
        found
    }

    /// Whether a taker justly envies a rival the brew that the rival has.
    fn envies_rival(&self, allotment: &[u8], taker: usize, rival: usize) -> bool
        requires { (taker < 432) × (rival < 432) }
        ensures { result ≡ envies_rival (market_in T.meaning B.meaning self.now) allotment.now taker rival }
    {
        let own = brew_of(allotment, taker);
        let other = brew_of(allotment, rival);
        ranks_above(self.takers, taker + 1, other, own)
            && ranks_above(self.brews, other, taker + 1, rival + 1)
    }

    /// Counts all just envies, by taker, then brew, then rival. The line is emptied, and then takes them until it is full.
    pub fn envies(&self, allotment: &[u8], line: &mut Line, slots: &mut [Envy]) -> usize
        ensures { EnviesTold (market_in T.meaning B.meaning self.now) allotment.now slots.old result line.new slots.new }
    {
        line.clear();
        let mut count = 0;
        for (taker, &entry) in allotment.iter().take(self.figures.takers()).enumerate() {
            let own = usize::from(entry);
            count += self.envies_of(allotment, taker, own, line, slots);
        }
        count
    }

    /// Counts and offers the just envies of a taker, whose own brew is given.
    fn envies_of(
        &self,
        allotment: &[u8],
        taker: usize,
        own: usize,
        line: &mut Line,
        slots: &mut [Envy],
    ) -> usize
        requires { (taker < 432) × (own ≡ brew_of allotment.now taker) }
        ensures told { OffersAll (envies_of (market_in T.meaning B.meaning self.now) allotment.now taker) result line.old slots.old line.new slots.new }
        ensures few { result ≤ 6912 }
    {
        let mut count = 0;
        // Brews are numbers: the book is asked for each.
        for brew in 1..=self.figures.brews() {
            count += self.envies_over(allotment, taker, own, brew, line, slots);
        }
        count
    }

    /// Counts and offers the just envies of a taker over a brew. One that it does not rank above its own is passed over.
    fn envies_over(
        &self,
        allotment: &[u8],
        taker: usize,
        own: usize,
        brew: usize,
        line: &mut Line,
        slots: &mut [Envy],
    ) -> usize
        requires { (taker < 432) × (own ≡ brew_of allotment.now taker) × (1 ≤ brew) }
        ensures told { OffersAll (envies_over (market_in T.meaning B.meaning self.now) allotment.now taker brew (figures_of self.now.figures).takers) result line.old slots.old line.new slots.new }
        ensures few { result ≤ 432 }
    {
        if !ranks_above(self.takers, taker + 1, brew, own) {
            return 0;
        }
        let mut count = 0;
        for (rival, &entry) in allotment.iter().take(self.figures.takers()).enumerate() {
            let other = usize::from(entry);
            count += self.envy_over(taker, brew, rival, other, line, slots);
        }
        count
    }

    /// Counts and offers the envy of one rival over a brew that the taker ranks above its own: the rival's, which is given,
    /// is that brew, and it ranks the taker above the rival.
    fn envy_over(
        &self,
        taker: usize,
        brew: usize,
        rival: usize,
        other: usize,
        line: &mut Line,
        slots: &mut [Envy],
    ) -> usize
        requires { (taker < 432) × (rival < 432) }
        ensures told { (a : List ℕ) → IsTrue (prefers (market_in T.meaning B.meaning self.now) taker brew (brew_of a taker)) → other ≡ brew_of a rival → OffersAll (envy_over (market_in T.meaning B.meaning self.now) a taker brew rival) result line.old slots.old line.new slots.new }
        ensures few { result ≤ 1 }
    {
        if other == brew && ranks_above(self.brews, brew, taker + 1, rival + 1) {
            let envy = Envy {
                taker: number(taker),
                brew,
                rival: number(rival),
            };
            offer(line, slots, envy);
            1
        } else {
            0
        }
    }
}

/// Puts a record behind the others, unless every slot is taken.
fn offer(line: &mut Line, slots: &mut [Envy], envy: Envy)
    ensures { OffersMore (envy ∷ []) line.old slots.old line.new slots.new }
{
    let _ = line.put(slots, envy);
}

/// The number by which the taker at an index is told.
fn number(index: usize) -> usize
    requires { index + 1 < 2 ^ 64 }
    ensures { result ≡ index + 1 }
{
    index + 1
}
