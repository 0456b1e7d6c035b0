//! The state of a run of deferred acceptance in which the takers wait in line, and what each of its steps keeps:
//! definitions in specs/, lemmas in proofs/.
#![tactic(auto)]
