//! The outside of the router: the files that are read, those that are written, and standard output, as traits that count their faults; in
//! memory and over the system.
#![tactic(auto)]

mod copying;
mod failure;
mod last_error;
mod mem_sink;
mod mem_system;
mod memory;
mod outside;
mod pieces;
mod quiet;
mod reader;
mod real_sink;
mod real_system;
mod shelf;
mod system;
mod system_reading;
mod system_writing;
mod window;
mod writers;

pub use last_error::{ReadError, WriteCall, WriteError};
pub use mem_sink::MemSink;
pub use mem_system::{MemReadHandle, MemSystem, MemWriteHandle};
pub use memory::{MemReading, MemWriting};
pub use outside::{Fault, Outside, Reading, Sink, Writing};
pub use pieces::{append_all, bytes_at, fill, put_all};
pub use quiet::{QuietReading, QuietWriting};
pub use real_sink::RealSink;
pub use real_system::{RealFiles, RealReading, RealSystem, RealWriting, real_files};
pub use system::System;
pub use system_reading::SystemReading;
pub use system_writing::SystemWriting;
