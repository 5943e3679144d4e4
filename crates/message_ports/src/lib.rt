//! Message ports: the messages that wait in each, first in, first out.
#![tactic(auto)]

mod ports;

pub use ports::{MAX_PORTS, PortFault, Ports};
