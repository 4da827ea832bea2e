// The message that bytes are, as a function that computes, with which the host's steps are defined. There
// is no code here: code reads with `parsing::parse`, and the law `parse_reads` says that both agree.
#![tactic(auto)]
