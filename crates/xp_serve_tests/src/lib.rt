//! Tests of what no run of the program shows: notices for which there is no room, a queue of traced pieces that is full, and a link
//! without a call.
#![tactic(auto)]

#[cfg(test)]
mod links;
#[cfg(test)]
mod notices;
#[cfg(test)]
mod taps;
