//! The tests of a proposed list.

ghost use Rattle.std.specs.Prelude.{◌≡◌, ℕ, List};
ghost use Rattle.fair.specs.Choices.{IsChoice};
ghost use Rattle.fair.specs.Markets.{Market, SoundMarket};
ghost use Rattle.fair.specs.Proposals.{Judged, Passes, Verdict};
ghost use Rattle.fair.specs.Settlement.{FairAndUnbettered};

/// Every list passes the tests, or fails exactly one of them first, at exactly one place.
pub fn one_verdict()
    ensures { (w : Market) → SoundMarket w → (house : List ℕ) → IsChoice w.figures house → (a : List ℕ) → (v : Verdict) × Judged w house a v × ((u : Verdict) → Judged w house a u → u ≡ v) }
{}

/// A list that passes the tests has the properties of a settlement.
pub fn passed_is_fair_and_unbettered()
    ensures { (w : Market) → SoundMarket w → (house : List ℕ) → IsChoice w.figures house → (a : List ℕ) → Passes w house a → FairAndUnbettered w house a }
{}
