// The three demands on one page: proofs/Demands.antt states each sentence as a theorem. No code.
#![tactic(auto)]
