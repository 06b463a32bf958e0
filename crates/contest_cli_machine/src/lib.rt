//! What a command asks of the machine that it runs on, and the machine of the program: its clock,
//! its files, and its loopback address.
#![tactic(auto)]

mod client_stream;
mod host;
mod host_network;
mod machine;
mod network;
mod opening;
mod patience;

pub use client_stream::{ClientReader, ClientWriter};
pub use host::Host;
pub use host_network::{HostListener, HostNetwork};
pub use machine::{Machine, MachineClock, Outside};
pub use network::{Connected, Listen, Network};
pub use opening::Opening;
