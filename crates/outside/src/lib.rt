//! What lies outside of the program: sources, sinks, disks, shelves of files and disks, doors
//! through which connections come, dials that call a standby, and links that give both, each a
//! trait with an object in memory that meets it.
//!
//! A call answers `Failed` only where the count of faults of its object rose. A read behind the end
//! of a disk, and an exchange for a count that no number has, are shut by `requires`. Of an
//! exchange it is told above which number the answer had to be. What an object gives or holds is
//! told over memory and isn't told over a real stream or file.
//!
//! Read `stream`, `disk`, `shelf`, `dial` and `links` first, and `write`, which has what is written
//! whole; then the objects in memory, which keep to a `Plan` of the calls that are to fail.
#![tactic(auto)]

mod dial;
mod disk;
mod fault;
mod gate;
mod links;
mod memory_dial;
mod memory_disk;
mod memory_door;
mod memory_links;
mod memory_shelf;
mod memory_stream;
mod places;
mod plan;
mod shelf;
mod stream;
mod write;

pub use dial::Dial;
pub use disk::Disk;
pub use fault::Failed;
pub use gate::{Gate, OpenGate, Point};
pub use links::{Door, Links, LinksError};
pub use memory_dial::{Answered, MemoryDial};
pub use memory_disk::{Call, MemoryDisk, Operation};
pub use memory_door::{Connection, DoorBack, Finished, MemoryDoor};
pub use memory_links::{Listened, MemoryLinks};
pub use memory_shelf::{MemoryFile, MemoryShelf};
pub use memory_stream::{MemorySink, MemorySource};
pub use places::Places;
pub use plan::{Pieces, Plan};
pub use shelf::{Shelf, ShelfError};
pub use stream::{Sink, Source};
pub use write::{write_all, write_parts};
