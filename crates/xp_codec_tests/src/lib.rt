//! Tests of the codecs: what no contract says, as a table.
#![tactic(auto)]

#[cfg(test)]
mod calls;
#[cfg(test)]
mod playing;
#[cfg(test)]
mod table;
