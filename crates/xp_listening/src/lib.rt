//! Where the lines of an exchange are connected to: the host and the ports that are listened on, the addresses of sources and
//! routers; and why lines are not served.
#![tactic(auto)]

mod failure;
mod host;
mod listening;
mod next_places;
mod preparation;

pub use failure::ServeFailure;
pub use host::host_address;
pub use listening::listen_all;
pub use next_places::prepare;
pub use preparation::{PortFault, check_serving, line_at_port, try_ports};
pub use xp_tcp::NextPorts;
