//! What a word of a script's line spells: a number, an address, a name, bytes in hex or in quotes, fields. The spelling is this project's own.
#![tactic(auto)]

pub mod address;
mod area;
pub mod bytes;
pub mod cause;
mod fields;
pub mod kept_entity;
pub mod kept_name;
pub mod kept_player;
pub mod kept_text;
pub mod laws;
pub mod name;
mod numbers;
mod quotes;
mod sparse;
pub mod words;

pub use address::read_address;
pub use area::{area_bytes, handed_bytes};
pub use bytes::Bytes;
pub use cause::LineCause;
pub use fields::{entity_state, player_state};
pub use kept_entity::KeptEntity;
pub use kept_name::KeptName;
pub use kept_player::KeptPlayer;
pub use kept_text::KeptText;
pub use name::Name;
pub use numbers::{LAST_ENTITY, client_word, entity_word, number_word};
pub use quotes::{config_bytes, text_word};
