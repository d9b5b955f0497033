// Two ports, one moment: calls of a host on different interfaces at one time, in either order. Theorems alone: the statements are
// specs/Order.antt and specs/Interleaved.antt, the proofs stand in proofs/.
#![tactic(auto)]
