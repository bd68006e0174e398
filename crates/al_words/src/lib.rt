//! The words of the command, behind the program's name and `--db FILE`: which of its six lines they
//! are, and what that line says.
//!
//! [`is_command`] says whether they are the name of a line with as many words behind it as it has,
//! read by `clap`; [`read_line`] what the line says, each number in its bounds; [`read_command`]
//! both. Words that are no command are usage.
#![tactic(auto)]

mod app;
mod command;
mod laws;
mod line;
mod number;
mod read;

pub use command::is_command;
pub use laws::line_laws;
pub use line::{Line, read_line};
pub use read::read_command;
