//! Doors and their ports: where connections come from. A door gives each of a number of workers a port, a port gives
//! links one after the other, and each link and each port is handed back. The door in memory tells all.
#![tactic(auto)]

mod door;
mod memory_door;
mod memory_port;
mod port;

pub use door::Door;
pub use memory_door::MemoryDoor;
pub use memory_port::MemoryPort;
pub use port::{DoorPort, share_of};
