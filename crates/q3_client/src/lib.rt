//! A client's end: it takes datagrams and makes datagrams. Whoever drives it has the socket and the clock.
//!
//!     a player: add_move, type_command, ask_whole --> +--------+
//!     a datagram of the server ------------ take ---> | Client | --> ClientTook, and Log: what it executed
//!     when one is due ---------------------- emit --> +--------+ --> Sent, and the datagram to send
//!
//! `new` makes one, with the challenge and the qport with which it joined. Then a turn is:
//! 1. `take` each datagram that came. After `Applied`, `state()` tells what the messages left: the config strings, the map's id,
//!    and the snapshots that are held, each lent by `view`. `log` has the server's commands that were executed.
//! 2. Hand in what the player did: `add_move`, from the first gamestate on, and `type_command`.
//! 3. `emit`, and send `out` to the server unless it is empty. Where a message has several pieces, each further `emit` hands out
//!    one (`Fragment`) until none is left.
//!
//! It sends before it has a gamestate, too: by such a message the server learns that it needs one. With `Illegible` it is
//! dropped: from then on it takes and sends nothing. `turns.rt` of q3_tests drives a client and its server in such turns.
//! After `new` no call takes memory. The rules are in docs/protocol.md, by the names that the modules call.
#![tactic(auto)]

pub mod client;
pub mod laws;
mod moves;
mod receiving;
mod saying;

pub use client::{Client, ClientTook, MoveError, Sent};
