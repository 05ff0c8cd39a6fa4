// No code: what a desk may count on when it builds, begins and feeds stands in specs/, the theorems in proofs/.
#![tactic(auto)]
