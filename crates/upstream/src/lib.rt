// Upstream's relations as they stand, and lemmas that the definitions here imply them: no code. What upstream
// leaves free is left free here, and what it gets wrong is wrong here, so that nobody can say that an easier
// text was proved.
#![tactic(auto)]
