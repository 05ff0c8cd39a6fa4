// No code: the definitions of what a scan means stand in specs/, their laws in proofs/.
#![tactic(auto)]
