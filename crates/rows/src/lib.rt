#![tactic(auto)]

// Document 01's worked rows, in specs/Rows.antt, and their claim, in proofs/Rows.antt.
