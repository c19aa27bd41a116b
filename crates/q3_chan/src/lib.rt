//! The netchan: messages of any length are cut into datagrams, and datagrams in any order are gathered into messages; and messages
//! are scrambled, or each datagram has a check.
#![tactic(auto)]

mod buffer;
pub mod clear;
pub mod form;
pub mod gatherer;
mod header;
pub mod laws;
mod limits;
pub mod qport;
pub mod scrambling;
pub mod sender;
pub mod side;
pub mod starts;

pub use clear::{is_unclear, scramble_client, scramble_server};
pub use form::{Form, check_for, is_checked};
pub use gatherer::{Gathered, Gatherer};
pub use limits::{DATAGRAM_ROOM, FRAGMENT_SIZE, LONGEST_MESSAGE, SEQUENCE_END};
pub use qport::{NoQport, qport_of};
pub use scrambling::scramble;
pub use sender::{Datagram, Sender};
pub use side::Side;
pub use starts::{client_start, server_start};
