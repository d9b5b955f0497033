// One owner: any number of hosts on a link with the same unique name. Theorems alone: the statement is specs/Link.antt, the proof
// proofs/Demand3.antt; proofs/Lib.antt is the map of the proof.
#![tactic(auto)]
