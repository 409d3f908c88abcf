//! What the outside gives and takes: sources, sinks, doors, links, clocks and disks, all but clocks with a count of faults.
//!
//! Each device is a trait whose ghost members are what it may tell, and a failure comes only where its count of faults
//! rose. A form in memory tells all, and its methods say exactly when they fail and what they leave, by a script of its
//! calls. An adapter over the system is proved against its trait, and tells nothing of content. A new device
//! takes a trait, a form in memory and an adapter, each in a file of its own.
#![tactic(auto)]

mod clock;
mod disk;
mod disk_script;
mod disk_store;
mod door;
mod epoch_file;
mod epoch_text;
mod file_disk;
mod link;
mod memory_disk;
mod memory_door;
mod memory_link;
mod memory_sink;
mod memory_source;
mod memory_streams;
mod peer_name;
mod reading;
mod script;
mod stream_sink;
mod stream_source;
mod system_clock;
mod tcp_connection;
mod tcp_door;
mod tcp_link;
mod traits;
mod writing;

pub use clock::{Clock, StepClock};
pub use disk::{Disk, DiskRefusal};
pub use door::Door;
pub use file_disk::FileDisk;
pub use link::Link;
pub use memory_disk::MemDisk;
pub use memory_door::MemDoor;
pub use memory_link::MemLink;
pub use memory_sink::MemSink;
pub use memory_source::MemSource;
pub use reading::{ReadEnd, read_all};
pub use stream_sink::StreamSink;
pub use stream_source::StreamSource;
pub use system_clock::SystemClock;
pub use tcp_door::TcpDoor;
pub use tcp_link::TcpLink;
pub use traits::{Counted, Failed, Sink, Source, Stream};
pub use writing::write_all;
