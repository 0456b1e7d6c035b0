//! The market that two order books make.

ghost use Rattle.fair.specs.FromBooks.{Complete, market_of};
ghost use Rattle.fair.specs.Markets.{Figures, InLimits, SoundMarket};
ghost use Rattle.orders.specs.Books.{Meaning, Sound};

/// Two books that keep their law, of the sizes of figures within the limits, in which every chooser has an order, make a
/// sound market.
pub fn books_make_a_sound_market()
    ensures { (f : Figures) (takers_book brews_book : Meaning) → InLimits f → Sound takers_book → Sound brews_book → Complete f takers_book brews_book → SoundMarket (market_of f takers_book brews_book) }
{}
