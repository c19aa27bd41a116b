//! The events of a script.

use arrayvec::ArrayVec;
use q3_clmsg::Move;
use q3_io::Address;
use q3_player::MOST_AREA;
use q3_words::{Bytes, KeptEntity, KeptName, KeptPlayer, KeptText};

/// What one line of a script says: one call of one end, or something that the game hands in.
/// `c` is the number of a client, 0 to 15.
#[derive(Debug, Drop, PartialEq, Eq)]
pub enum Event {
    /// A client joins, with its challenge, its qport, of how many messages before it each message repeats the moves, and its
    /// address.
    Client {
        c: u8,
        challenge: u32,
        qport: u16,
        dup: u8,
        address: Address,
    },
    /// A client's later datagrams come from this port.
    Port {
        c: u8,
        port: u16,
    },
    /// A new map, with its id and its checksum feed.
    Map {
        id: u32,
        feed: u32,
    },
    /// The whole state of an entity, under its number.
    Entity {
        state: KeptEntity,
    },
    /// The entity of this number is gone from now on.
    Remove {
        number: u16,
    },
    /// The baseline of an entity, under its number.
    Baseline {
        state: KeptEntity,
    },
    /// The whole state of a client's player.
    Player {
        c: u8,
        player: KeptPlayer,
    },
    /// The area bytes of a client's snapshots, a bit for each area of the map: 1 where the client can't see it.
    Area {
        c: u8,
        area: ArrayVec<u8, MOST_AREA>,
    },
    /// The server's time, in milliseconds.
    Time {
        time: u32,
    },
    /// A config string changes to a text. An index of 1,024 or more is refused when the event is done.
    Config {
        index: u32,
        text: Bytes,
    },
    /// The server issues a command to the client.
    Say {
        c: u8,
        text: KeptText,
    },
    /// The client issues a command to the server.
    TypeText {
        c: u8,
        text: KeptText,
    },
    /// The client issues a move.
    Move {
        c: u8,
        one: Move,
    },
    /// The server makes a datagram for the client.
    Serve {
        c: u8,
    },
    /// The client makes a datagram for the server.
    Send {
        c: u8,
    },
    /// The datagram of this number, counted from 1, arrives.
    Deliver {
        datagram: u32,
    },
    /// The client's messages are recorded into a file of this name from its next whole snapshot on.
    RecordTo {
        c: u8,
        name: KeptName,
    },
    /// The client's recording ends.
    Stop {
        c: u8,
    },
    /// The client's newest accepted snapshot is printed.
    Show {
        c: u8,
    },
    /// The bytes of the datagram of this number are printed.
    Bytes {
        datagram: u32,
    },
    /// These bytes arrive at a client.
    Toclient {
        c: u8,
        bytes: Bytes,
    },
    /// These bytes arrive at the server, from a client's address.
    Toserver {
        c: u8,
        bytes: Bytes,
    },
    /// The lines after this one are due when so many milliseconds have passed, 0 to 3,600,000.
    At {
        ms: u32,
    },
    /// The node ends when so many have passed.
    End {
        ms: u32,
    },
}
