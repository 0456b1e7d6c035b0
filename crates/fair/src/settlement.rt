//! One pass over the choices settles a round.

ghost use Rattle.std.specs.Prelude.{◌≡◌, ℕ, ◌<◌, true, List};
ghost use Rattle.fair.specs.Allotments.{Better, claimants, Feasible, Over};
ghost use Rattle.fair.specs.Choices.{among, IsChoice};
ghost use Rattle.fair.specs.Markets.{lots_of, Market, SoundMarket};
ghost use Rattle.fair.specs.Settlement.{Settlement, FairAndUnbettered};

/// From every house choice there is exactly one settlement.
pub fn one_settlement()
    ensures { (w : Market) → SoundMarket w → (house : List ℕ) → IsChoice w.figures house → (a : List ℕ) × Settlement w house a × ((b : List ℕ) → Settlement w house b → b ≡ a) }
{}

/// A settlement is feasible and fair, no taker is lower than in any feasible fair allotment over the house's brews,
/// and no feasible fair allotment is better.
pub fn settlement_is_fair_and_unbettered()
    ensures { (w : Market) → SoundMarket w → (house : List ℕ) → IsChoice w.figures house → (a : List ℕ) → Settlement w house a → FairAndUnbettered w house a }
{}

/// No feasible allotment over a choice is better than the one held, where a brew of the choice has fewer claimants than
/// lots: such a choice may be passed over.
pub fn too_few_claimants()
    ensures { (w : Market) → SoundMarket w → (held : List ℕ) → Feasible w held → (cs : List ℕ) (c : ℕ) → among cs c ≡ true → claimants w held c < lots_of w.figures c → (b : List ℕ) → Feasible w b → Over w cs b → Better w b held → ⊥ }
{}
