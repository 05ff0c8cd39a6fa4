// No code: how the functions of crate `parts` make a listing, turn by turn, stands in specs/, and that it is the listing in proofs/.
#![tactic(auto)]
