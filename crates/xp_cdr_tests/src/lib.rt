//! Tests of call detail records: a file that fails, and numbers that no run of the program has.
#![tactic(auto)]

#[cfg(test)]
mod calls;
#[cfg(test)]
mod failing;
#[cfg(test)]
mod writing;
