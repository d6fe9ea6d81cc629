// Document 01's twelve marked examples, proved together as one statement: specs/Rows.antt has the rows, proofs/Marked.antt the proof.
#![tactic(auto)]
