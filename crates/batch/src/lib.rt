// The call for C: a batch run on a new reader, with numbers in the place of what is an enum below.
#![tactic(auto)]

mod calling;
mod outcome;
