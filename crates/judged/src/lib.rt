// What the judges in tests/judges call: the public functions of the map and of the table under names that
// C can call. Test equipment, and no part of the product. Each function hands its arguments on, calls once
// and turns the answer into a number, so that there is next to nothing to prove; what the answer means is
// the contract of the function that it calls. A bound comes as two arguments: is it end, and else its key.
// C knows no struct of slices and no Option: slices stand side by side, and a flag beside what it tells.
#![tactic(auto)]

mod code;
mod map;
mod table;
