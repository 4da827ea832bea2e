// What a program in another language calls: a host's steps over the memory that it is lent, and the audit. Each
// function hands on what it is given to the crate of its name, which reads the host's numbers from twelve words,
// takes one step, writes the numbers back and answers what became of it as a number; include/tagshards.h says all
// of it in C's words. They stand here together because an archive has the functions of one crate.
// C knows neither a struct of slices nor an Option, so slices stand side by side, and `arrived` beside the datagram.
#![tactic(auto)]

mod audit;
mod process;
mod receive;
mod retransmit;
mod start;
mod turn;
