//! What every crate of the compiler shares: lists, boxes, names and places, and the traits of the outside.
#![tactic(auto)]

mod fetches;
mod files;
mod mem_files;
mod mem_sink;
mod name;
mod os_files;
mod os_sink;
mod place;
mod put;
mod sink;
mod steady;

pub use files::{FetchFault, Files, MAX_FILE_BYTES, Reason, Refusal, limits};
pub use mem_files::{Held, MemFiles};
pub use mem_sink::{MemSink, Trip};
pub use name::Name;
pub use os_files::OsFiles;
pub use os_sink::OsSink;
pub use place::Place;
pub use put::{Piece, put_bytes, put_number, put_pieces, put_text};
pub use sink::{PutFault, Sink};
pub use sqlite_items::{Boxed, Items as List};
pub use steady::{SteadyFiles, SteadySink};
