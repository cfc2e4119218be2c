// The worked figures: the rows of crate claims and the runs of asks of specs/Runs, jointly. proofs/Figures has the theorem.
#![tactic(auto)]
