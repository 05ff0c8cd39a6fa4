// No code: how the states of a book are listed and numbered stands in specs/, the laws in proofs/.
#![tactic(auto)]
