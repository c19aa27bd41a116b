//! The parts of a message, lent by those who keep them, and what is answered where it was written.

use q3_entity::EntityState;
use q3_player::SnapHead;
use q3_svmsg::BaseView;
use q3_window::{Incoming, Outgoing};

/// What a message tells a client beside its section, and where its keys start by protocol 68.
#[derive(Clone, Copy)]
pub struct TellingParts<'a> {
    /// Which of the client's commands were executed.
    pub executed: &'a Incoming,
    /// Which commands were issued to it.
    pub issued: &'a Outgoing,

    // from which the keys start
    /// With which the client joined.
    pub challenge: u32,
    /// Of the message.
    pub number: u32,
}

/// A snapshot and what it is written against.
#[derive(Clone, Copy)]
pub struct SnapshotParts<'a> {
    /// The number of the base, 0 for none.
    pub base: u32,
    /// What the base is, if there is one.
    pub against: Option<BaseView<'a>>,
    pub head: &'a SnapHead,
    /// By rising number.
    pub entities: &'a [EntityState],
}

/// How a message was written.
#[derive(Clone, Copy)]
pub struct Written {
    /// The number of its base, 0 for none.
    pub base: u32,
    /// How many bytes it has.
    pub bytes: usize,
}
