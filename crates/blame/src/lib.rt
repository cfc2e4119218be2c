// Definitions and laws only: why no schedule is left with some starts below a limit. See specs/ and proofs/.
#![tactic(auto)]
