//! What each event answered, as values: all that stands in the lines of the report, with what the ends lend to be printed.

use q3_client::{Client, ClientTook, MoveError, Sent};
use q3_clstate::Log;
use q3_map::NotLater;
use q3_rings::SnapView;
use q3_server::{ConfigRefused, Emitted, Heard, NoClient, SayError, ServerTook, SlotError};

/// Why a client doesn't issue a command.
#[derive(Clone, Copy, Debug, PartialEq, Eq)]
pub enum TypeRefused {
    /// No such client was added.
    NoClient,
    /// The client's window has no room for it.
    WindowFull,
}

/// Why a client doesn't issue a move.
#[derive(Clone, Copy, Debug, PartialEq, Eq)]
pub enum MoveRefused {
    /// No such client was added.
    NoClient,
    /// The client's own end refuses it.
    Error(MoveError),
}

/// Why a client doesn't begin a recording.
#[derive(Clone, Copy, Debug, PartialEq, Eq)]
pub enum RecordRefused {
    /// No such client was added.
    NoClient,
    /// It has applied no gamestate yet.
    NoGame,
    /// It records already.
    Already,
}

/// Why a client doesn't end a recording.
#[derive(Clone, Copy, Debug, PartialEq, Eq)]
pub enum StopRefused {
    /// No such client was added.
    NoClient,
    /// It doesn't record, or its recording ended by itself.
    NotRecording,
}

/// The number of an entity isn't below the end mark of the profile's entity table.
#[derive(Clone, Copy, Debug, PartialEq, Eq)]
pub struct OutOfRange;

/// Why a baseline isn't taken over.
#[derive(Clone, Copy, Debug, PartialEq, Eq)]
pub enum BaselineRefused {
    /// Its number isn't below the end mark of the profile's entity table.
    OutOfRange,
    /// A gamestate of the map was begun.
    Late,
}

/// What was handed in to an end, and whether the end took it over.
#[derive(Clone, Copy, Debug, PartialEq, Eq)]
pub enum HandedIn {
    /// A client joins.
    Client {
        c: u8,
        outcome: Result<(), SlotError>,
    },
    /// The client's later datagrams come from the port, if it is there.
    Port {
        c: u8,
        outcome: Result<(), NoClient>,
    },
    /// The map of this id is played from now on, unless it was refused.
    Map {
        id: u32,
        outcome: Result<(), NotLater>,
    },
    /// The state of the entity of this number was taken over, unless it was refused.
    Entity {
        number: u16,
        outcome: Result<(), OutOfRange>,
    },
    /// There is no entity of this number any more, unless that was refused.
    Remove {
        number: u16,
        outcome: Result<(), OutOfRange>,
    },
    /// The baseline of this number was taken over, unless it was refused.
    Baseline {
        number: u16,
        outcome: Result<(), BaselineRefused>,
    },
    /// The config string of this index has the text, unless it was refused.
    Config {
        index: u32,
        outcome: Result<(), ConfigRefused>,
    },
    Player {
        c: u8,
        outcome: Result<(), NoClient>,
    },
    Area {
        c: u8,
        outcome: Result<(), NoClient>,
    },
    Time,
    /// The number of the command is told where it was issued.
    Say {
        c: u8,
        outcome: Result<u32, SayError>,
    },
    /// The number of the command is told where it was issued.
    TypeText {
        c: u8,
        outcome: Result<u32, TypeRefused>,
    },
    Move {
        c: u8,
        outcome: Result<(), MoveRefused>,
    },
    /// The client records into a file of its own from its next whole snapshot on, unless that was refused.
    Record {
        c: u8,
        outcome: Result<(), RecordRefused>,
    },
    /// The client's recording has its end, unless that was refused.
    Stop {
        c: u8,
        outcome: Result<(), StopRefused>,
    },
}

/// How bytes came to an end, which stands in front of what the end made of them.
#[derive(Clone, Copy, Debug, PartialEq, Eq)]
pub enum Front {
    /// The datagram of this number arrived.
    Deliver { datagram: u32 },
    /// A line of the script handed them to this client.
    Toclient { c: u8 },
    /// A line of the script handed them to the server, from this client's address.
    Toserver { c: u8 },
    /// They arrived over a wire.
    Arrive,
}

/// Why nobody took bytes.
#[derive(Clone, Copy, Debug, PartialEq, Eq)]
pub enum TakeRefused {
    /// No datagram of the number was made.
    Unknown,
    /// No such client was added.
    NoClient,
    /// They come from another address than that of this client's server.
    Stranger { c: u8 },
}

/// The end that took bytes, what it made of them, and what is printed under that.
#[derive(Clone, Copy)]
pub enum Taker<'a> {
    /// A client, which executed these commands, and whether its recording ended by itself.
    Client {
        c: u8,
        took: ClientTook,
        client: &'a Client,
        log: &'a Log,
        ended: bool,
    },
    /// The server, which executed and ran this.
    Server {
        took: ServerTook,
        heard: &'a Heard,
    },
}

/// What a client shows.
#[derive(Clone, Copy)]
pub enum Shown<'a> {
    /// No such client was added.
    NoClient,
    /// It has accepted no snapshot since its last gamestate.
    Nothing,
    /// The newest snapshot that it accepted.
    Newest(SnapView<'a>),
}

/// What an event answered.
#[derive(Clone, Copy)]
pub enum Answer<'a> {
    /// Something was handed in.
    HandedIn(HandedIn),
    /// The server's end was asked for a datagram for the client. The datagram's number is used where one was handed out.
    Serve {
        c: u8,
        emitted: Emitted,
        datagram: u32,
    },
    /// The client's end was asked for one, if it is there. The datagram's number is used where one was handed out.
    Send {
        c: u8,
        sent: Result<Sent, NoClient>,
        datagram: u32,
    },
    /// An end took bytes.
    Took {
        front: Front,
        taker: Taker<'a>,
    },
    /// Nobody took any.
    Untaken {
        front: Front,
        cause: TakeRefused,
    },
    /// A client was shown.
    Show {
        c: u8,
        shown: Shown<'a>,
    },
    /// The bytes of a datagram, if one of this number was made.
    Bytes {
        datagram: u32,
        bytes: Option<&'a [u8]>,
    },
}
