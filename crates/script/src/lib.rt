// A line of a script: its words, and the command that they are.
#![tactic(auto)]

mod command;
mod word;

pub use command::{CallLine, Command, ImageChange, PassLine, parse};
pub use word::Word;
