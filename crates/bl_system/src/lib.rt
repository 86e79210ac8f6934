//! The real outside: folders, files and streams of the system, and its clock.
//!
//! Each adapter is a few lines over std. It tells no content, since no proof knows what a real file
//! holds; what it promises is its count of faults, and the form of its answers. These lines are the
//! trusted edge of the program, and `bl_cli` alone names them. A folder or a disk that can't be
//! opened fails at each of its calls. This crate stands on `bl_outside`.
#![tactic(auto)]

mod file_disk;
mod read_source;
mod real_folder;
mod system_clock;
mod tcp_connections;
mod tcp_link;
mod write_sink;

pub use file_disk::{FileDisk, fill};
pub use read_source::ReadSource;
pub use real_folder::RealFolder;
pub use system_clock::SystemClock;
pub use tcp_connections::TcpConnections;
pub use tcp_link::TcpLink;
pub use write_sink::WriteSink;
