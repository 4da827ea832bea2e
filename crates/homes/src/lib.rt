// Hosts that run in lent memory follow a run of the world: definitions and a theorem, no code. What is
// known of the entry points here is their contracts.
#![tactic(auto)]
