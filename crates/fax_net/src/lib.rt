//! Sockets: many connections that are served side by side by one queue, and the request of `sendfax` sent to a server.
//!
//! A peer has only so much time. No other crate reads or writes a socket.
#![tactic(auto)]

mod breaks;
mod conversing;
mod exchanging;
mod joining;
pub mod laws;
mod link;
mod listening;
mod many;
mod patience;
mod peers;
mod pending;
mod seat;
pub mod sendfax;
mod sockets;
mod timed;

pub use breaks::Breaks;
pub use exchanging::exchange;
pub use listening::listen;
pub use peers::{BindFault, Coming, Moved, Network, Peers};
pub use sockets::{MachineNetwork, Sockets};
