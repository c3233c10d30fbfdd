// The line language of a program that drives a flash card: the commands of lines, and the texts that answer them.
#![tactic(auto)]

pub mod command;
pub mod number;
pub mod reply;
pub mod run;
pub mod words;

pub use command::{Command, NoCommand};
pub use reply::{Reply, ReportText};
pub use run::answer;
