// Examples as theorems. specs/Cases.antt has those of single calls and short runs, with their proof in proofs/Hold.antt; specs/Exchange.antt an
// exchange; specs/Order.antt calls of which the order matters; specs/Ports.antt tables with masks; specs/Numbers.antt the numbers of the rules.
#![tactic(auto)]
