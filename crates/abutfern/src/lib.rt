// The C interface: each function is that of the library, under a name of its own, and C gets its result as a record of numbers.
#![tactic(auto)]

mod captures;
mod estimates;
mod estimators;
mod floats;
mod records;
