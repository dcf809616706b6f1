//! Tests of the exchange under a lock, and of outboxes.
#![tactic(auto)]

#[cfg(test)]
mod log;
#[cfg(test)]
mod outbox;
#[cfg(test)]
mod playing;
#[cfg(test)]
mod scenes;
#[cfg(test)]
mod starting;
