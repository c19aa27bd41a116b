//! The server's end: it takes datagrams and makes datagrams. Whoever drives it has the socket and the clock.
//!
//!     game: new_map, set_time, set_entity, set_config, say, .. --> +--------+
//!     a datagram that came, and from where ------------ take ----> | Server | --> ServerTook, and Heard: what it ran
//!     a slot that is due ------------------------------ emit ----> +--------+ --> Emitted, and the datagram to send
//!
//! `new` makes one, `add_client` puts a client into a slot, and `new_map` begins a map, whose baselines `set_baseline` takes
//! until a gamestate of it was begun. Then a turn is:
//! 1. Hand in what changed: `set_time`, `set_entity`, `remove_entity`, `set_config`, `set_player`, `set_area`, `say`.
//! 2. `take` each datagram that came. What `heard` has of it, commands and moves, is for the game.
//! 3. `emit` for each slot that is due, and send `out` to `address(slot)` unless it is empty. As long as `sending(slot)` is some,
//!    the next `emit` hands out a further piece of the same message.
//!
//! A gamestate isn't asked for: where one is owed to a client, `emit` begins it before any other message. `turns.rt` of q3_tests
//! drives a server and its client in such turns. After `new` no call takes memory. The rules are in docs/protocol.md, by the names
//! that the modules call.
#![tactic(auto)]

pub mod laws;
pub mod server;
mod slots;

pub use q3_map::{Late, NotLater};
pub use q3_slot::{Emitted, Heard, NoClient, SayError, ServerTook};
pub use server::{ConfigRefused, MOST_SLOTS, Server, SlotError};
