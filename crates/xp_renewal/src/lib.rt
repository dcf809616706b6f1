//! The subscription file of an exchange that serves, which is read again when other subscriptions are asked for.
#![tactic(auto)]

mod not_read;
mod renewal;
mod subscription_file;
mod telling;

pub use renewal::Renewal;
pub use subscription_file::SubscriptionFile;
