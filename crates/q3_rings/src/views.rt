//! What is lent of a snapshot that a client holds.

use q3_entity::Run;
use q3_player::{PlayerState, SnapHead};

/// A snapshot that a client accepted, where it lies. It borrows the ring and copies nothing.
#[derive(Clone, Copy)]
pub struct SnapView<'a> {
    /// The number of the message that carried it.
    pub number: u32,
    /// The server's time in milliseconds.
    pub time: u32,
    /// 1 for a delayed rate, 2 for a client that isn't active, 4 for the server's count.
    pub flags: u8,
    /// A bit for each area of the map: 0 where the client sees into it.
    pub area: &'a [u8],
    pub player: &'a PlayerState,
    /// By rising number.
    pub entities: Run<'a>,
}

/// What is left of a snapshot in its place, also where its entities are gone.
#[derive(Clone, Copy)]
pub struct Held<'a> {
    pub head: &'a SnapHead,
    /// How many entities were placed since it was begun, its own among them.
    pub age: u64,
}
