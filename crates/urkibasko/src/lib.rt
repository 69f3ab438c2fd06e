// The C interface: the functions of include/urkibasko.h. A slice is a pointer and a length there. Each function takes any input, and its
// contract is that of the function it wraps, through a definition of specs/ that gives the numbers and values of each case.
#![tactic(auto)]

mod answers;
mod appends;
mod builds;
mod finds;
mod images;
mod journals;
mod ledgers;
mod logs;
mod records;
mod reports;
mod rows;
mod sets;
mod summaries;
mod supers;
mod varints;
