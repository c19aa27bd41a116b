//! What each event answered, and the lines that it prints: those of the server's end, those of a client's, and those of what is handed
//! in. The texts stand in `specs/`, and every printing function adds the text of its answer, to the letter, or a front of it where the
//! sink failed.
#![tactic(auto)]

pub mod answer;
mod client;
mod refusals;
mod report;
mod server;

pub use answer::{
    Answer, BaselineRefused, Front, HandedIn, MoveRefused, OutOfRange, RecordRefused, Shown,
    StopRefused, TakeRefused, Taker, TypeRefused,
};
pub use report::print_answer;
