//! A door over a TCP listener: it listens on this machine alone, and its links are the connections.
#![tactic(auto)]

mod accepting;
mod door;
mod link;
mod patience;
mod port;
mod system_watch;
mod watch;
mod write_both;

pub use door::TcpDoor;
pub use link::TcpLink;
pub use port::TcpPort;
pub use system_watch::SystemWatch;
pub use watch::Watch;
