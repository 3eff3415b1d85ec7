//! The program: its words, what it reads and writes, and what its answers mean.
#![tactic(auto)]

mod command;
mod command_line;
mod list_file;
mod reading;
#[cfg(test)]
mod reading_tests;
mod status;
mod system;
#[cfg(test)]
mod tests;
#[cfg(test)]
mod tree_tests;
#[cfg(test)]
mod word_tests;
mod words;

pub use command::eifcheck;
pub use status::Status;
pub use system::program;
