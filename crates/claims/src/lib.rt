// Worked rows that guard the definitions of crate model, proved of these: an input and what is claimed of it. specs/Rows has the kinds of rows that
// are about a file, and the figures marked P in document 01; specs/General, Ties, Warm, Worked, Refusals and Encodings have the others. A row is a
// test that is computed, and laws that carry it to every schedule.
#![tactic(auto)]
