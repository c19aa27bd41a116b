//! Kinds of fields, tables of them, and the text of a changed field.
#![tactic(auto)]

pub mod delta;
pub mod float;
pub mod kind;
pub mod laws;
pub mod reading;
pub mod table;
pub mod writing;

pub use delta::{
    DeltaError, StateKind, agree, changed_count, normalize, read_counted, write_counted,
    write_numbered,
};
pub use float::{pattern_of, small_of};
pub use kind::{Kind, norm};
pub use reading::{read_entity_field, read_player_field};
pub use table::{LEAST_NUMBER_BITS, MOST_END, MOST_NUMBER_BITS, Table, TableError};
pub use writing::{write_entity_field, write_player_field};
