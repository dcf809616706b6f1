//! Tests of the threads of lines, over links in memory.
#![tactic(auto)]

#[cfg(test)]
mod faults;
#[cfg(test)]
mod kept;
#[cfg(test)]
mod scenes;
#[cfg(test)]
mod serving;
#[cfg(test)]
mod told;
