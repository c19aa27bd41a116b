//! Entities over a table of fields: the delta in which a message carries one, and lists of them.
#![tactic(auto)]

pub mod baselines;
pub mod error;
mod filling;
pub mod laws;
pub mod list_reading;
pub mod list_writing;
pub mod print;
pub mod reading;
mod run;
pub mod state;
pub mod writing;

pub use baselines::{Baselines, MOST_BASELINES};
pub use error::EntityError;
pub use list_reading::{read_list, skip_list};
pub use list_writing::{write_list, write_run};
pub use print::print_fields;
pub use reading::{Entry, read_entity};
pub use run::count_same;
pub use state::{EntityState, List, MOST_ENTITIES, Run};
pub use writing::{write_entity, write_removal};
