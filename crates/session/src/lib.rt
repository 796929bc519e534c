//! Follows a script: makes what it describes, and prints what it found, a line for each thing done.
#![tactic(auto)]

mod answer;
mod draw;
mod follow;
mod lines;
mod made;
mod print;
mod reader;
mod request;
mod script_sheet;
mod session;
mod setting;
mod show;
mod stop;
mod table;
mod table_form;
mod work;

pub use follow::{follow_script, run};
