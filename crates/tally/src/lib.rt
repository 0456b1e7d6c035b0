//! Counting, adding up, and places in a finite sequence: definitions in specs/, and what follows from them in proofs/.
#![tactic(auto)]
