// A schedule: the file format that the programs read, the calls in it made one after another, and the log of them.
#![tactic(auto)]

mod examined;
mod format;
mod logging;
mod running;
mod text;

pub use examined::Schedule;
pub use format::{Header, settings_in};
pub use logging::{ROOM, log, refused};
pub use running::{Table, client_of};
pub use text::{Line, put_bytes};
