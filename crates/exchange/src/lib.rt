// A lookup asks, a host of ours replies, and the lookup gets the reply: theorems alone, over the definitions of the crates host and lookup. What
// is shown stands in specs/, why in proofs/.
#![tactic(auto)]
