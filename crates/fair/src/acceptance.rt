//! Deferred acceptance over the brews of a choice.

ghost use Rattle.std.specs.Prelude.{◌≡◌, ℕ, List};
ghost use Rattle.fair.specs.Acceptance.{applications, deferred_acceptance, NobodyRefused, Run};
ghost use Rattle.fair.specs.Allotments.{BestFair};
ghost use Rattle.fair.specs.Choices.{IsChoice};
ghost use Rattle.fair.specs.Markets.{Market, SoundMarket};

/// Over one choice there is at most one best fair allotment.
pub fn best_fair_is_unique()
    ensures { (w : Market) → SoundMarket w → (cs a b : List ℕ) → BestFair w cs a → BestFair w cs b → a ≡ b }
{}

/// Over every choice the rounds of deferred acceptance are a run, end without a refusal, and give the best fair allotment.
pub fn deferred_acceptance_is_best_fair()
    ensures runs { (w : Market) → SoundMarket w → (cs : List ℕ) → IsChoice w.figures cs → (left : List (List ℕ)) × Run w cs left × (deferred_acceptance w cs ≡ applications w left) }
    ensures ends { (w : Market) → SoundMarket w → (cs : List ℕ) → IsChoice w.figures cs → NobodyRefused w (deferred_acceptance w cs) }
    ensures best { (w : Market) → SoundMarket w → (cs : List ℕ) → IsChoice w.figures cs → BestFair w cs (deferred_acceptance w cs) }
{}

/// Refusing one applicant at a time, or some, comes to the same allotment: every run with nobody left to refuse has.
pub fn finished_runs_agree()
    ensures { (w : Market) → SoundMarket w → (cs : List ℕ) → IsChoice w.figures cs → (left : List (List ℕ)) → Run w cs left → NobodyRefused w (applications w left) → applications w left ≡ deferred_acceptance w cs }
{}
