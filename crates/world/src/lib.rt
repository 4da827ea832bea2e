// All hosts and the network between them: definitions in specs/, the theorem about every run of them in
// specs/Theorem.antt, its proof in proofs/. There is no code here. A host's step is the function of
// `protocol` that its code is proved against, and what travels is bytes.
#![tactic(auto)]
