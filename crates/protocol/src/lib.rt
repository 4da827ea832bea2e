// The host as a function: definitions alone, in specs/, and laws about them. There is no code here. The
// host's code is proved against these definitions, and the theorem about all hosts (`world`) is about the
// same ones.
#![tactic(auto)]
