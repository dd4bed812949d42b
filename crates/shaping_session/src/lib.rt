//! A session that edits a shaping buffer: one command a line, one answer a line, from a reader to a writer.
#![tactic(auto)]

mod command;
pub mod ending;
mod query;
mod reply;
pub mod run;
mod session;
mod state_text;
mod words;
