// No code: what a phrase book's bytes mean, and which are refused, stands in specs/, the laws in proofs/.
#![tactic(auto)]
