//! Both ends, driven by their calls alone, as the first pages of their crates tell: no socket and no clock. Each message here
//! fits into one datagram.

ghost use Rattle.std.specs.Prelude.{◌≡◌};

use crate::fixtures::{entity, here};
use crate::profiles::plain_profile;
use q3_chan::Datagram;
use q3_client::{Client, ClientTook, MoveError, Sent};
use q3_clmsg::Move;
use q3_clstate::{Applied, Log, SnapOutcome};
use q3_entity::EntityState;
use q3_server::{Emitted, Heard, Server, ServerTook};
use q3_text::Commands;
use std::alloc::Global;
use std::process::Abort;
use std::test::*;

const CHALLENGE: u32 = 17;

const QPORT: u16 = 5000;

const PORT: u16 = 27_960;

/// The flags of a snapshot for a client that plays the first map: the count bit alone.
const SERVER_COUNT: u8 = 4;

/// A server on map 1, with one client.
fn server_on_a_map(rt: &impl Abort, alloc: Global) -> Server {
    let profile = plain_profile(rt, alloc);
    let mut server = Server::new(alloc, &profile, 1).expect(rt, "memory");
    assert_eq!(rt; server.add_client(0, CHALLENGE, QPORT, here(PORT)), Ok(()));
    assert_eq!(rt; server.new_map(1, 77), Ok(()));
    server
}

/// Its client, which has taken nothing.
fn client_of_it(rt: &impl Abort, alloc: Global) -> Client {
    let profile = plain_profile(rt, alloc);
    Client::new(alloc, &profile, CHALLENGE, QPORT, 0).expect(rt, "memory")
}

/// The game hands in the time, and entity 5 with this word in field 1.
fn hand_in(server: &mut Server, time: u32, word: u32) {
    let state = entity(word);
    // `set_entity` takes numbers below the end mark of the profile's table
    if state.number < server.end() {
        server.set_entity(&state);
    }
    server.set_time(time);
}

/// The player moves at this time.
fn issue_move(client: &mut Client, time: u32) -> Result<(), MoveError> {
    let mut one = Move::none();
    one.time = time;
    client.add_move(&one)
}

/// The number of the message that the client begins, if it begins one, and what the server makes of it.
fn send(client: &mut Client, server: &mut Server, heard: &mut Heard) -> (Option<u32>, ServerTook) {
    let mut out = Datagram::new();
    let begun = match client.emit(&mut out) {
        Sent::Message { number, .. } => Some(number),
        _ => None,
    };
    (begun, server.take(here(PORT), &out, heard))
}

/// The message that the server begins, and what the client makes of it.
fn serve(server: &mut Server, client: &mut Client, log: &mut Log) -> (Emitted, ClientTook) {
    let mut out = Datagram::new();
    let emitted = server.emit(0, &mut out);
    (emitted, client.take(&out, log))
}

/// Whether the server began a gamestate under this number, and the client applied it.
fn is_game(served: (Emitted, ClientTook), under: u32) -> bool {
    let applied = Applied {
        number: under,
        game: true,
        snap: SnapOutcome::NoSnap,
    };
    match served.0 {
        Emitted::Game { number, .. } => number == under && served.1 == ClientTook::Applied(applied),
        _ => false,
    }
}

/// Whether the server began a snapshot under this number against this base, 0 for none, and the client accepted it.
fn is_snapshot(served: (Emitted, ClientTook), under: u32, against: u32) -> bool {
    let applied = Applied {
        number: under,
        game: false,
        snap: SnapOutcome::Accepted { base: against },
    };
    match served.0 {
        Emitted::Snapshot { number, base, .. } => {
            number == under && base == against && served.1 == ClientTook::Applied(applied)
        }
        _ => false,
    }
}

/// Whether these are entity 5 alone, with this word in field 1.
fn are_entity(entities: &[EntityState], word: u32) -> bool {
    entities.len() == 1 && entities[0].number == 5 && entities[0].words[1] == word
}

/// Whether the client holds a snapshot under a number, of this time and with entity 5 alone, with this word.
fn holds(client: &Client, number: u32, time: u32, word: u32) -> bool {
    let Some(view) = client.view(number) else {
        return false;
    };
    view.time == time && view.flags == SERVER_COUNT && are_entity(view.entities.head, word)
}

/// Whether one move was run, of this time.
fn ran_move(heard: &Heard, time: u32) -> bool {
    heard.moves.len() == 1 && heard.moves[0].time == time
}

/// The client's first message has the id 0, so that a gamestate is owed to it; that arrives; and with its first move of the map
/// the client is active. That move isn't run.
fn join(
    rt: &impl Abort,
    server: &mut Server,
    client: &mut Client,
    heard: &mut Heard,
    log: &mut Log,
) {
    let ignored = ServerTook::Ignored { slot: 0, id: 0 };
    assert_eq!(rt; send(client, server, heard), (Some(1), ignored));
    assert!(rt; heard.owed);
    assert!(rt; is_game(serve(server, client, log), 1));
    assert_eq!(rt; issue_move(client, 10), Ok(()));
    let ran = ServerTook::Ran { slot: 0, number: 2 };
    assert_eq!(rt; send(client, server, heard), (Some(2), ran));
    assert_eq!(rt; heard.entered, Some(10));
    assert!(rt; heard.moves.is_empty());
}

/// The first snapshot has no base, and the next one that which the client's message between them acknowledges.
#[test]
fn a_client_joins_and_sees_snapshots(rt: HostRuntime) {
    let mut server = server_on_a_map(&rt, rt.alloc());
    let mut client = client_of_it(&rt, rt.alloc());
    let mut heard = Heard::new(rt.alloc()).expect(&rt, "memory");
    let mut log = Log {
        commands: Commands::new(rt.alloc()).expect(&rt, "memory"),
    };
    join(&rt, &mut server, &mut client, &mut heard, &mut log);
    hand_in(&mut server, 50, 9);
    assert!(rt; is_snapshot(serve(&mut server, &mut client, &mut log), 2, 0));
    assert_eq!(rt; issue_move(&mut client, 20), Ok(()));
    let ran = ServerTook::Ran { slot: 0, number: 3 };
    assert_eq!(rt; send(&mut client, &mut server, &mut heard), (Some(3), ran));
    assert!(rt; ran_move(&heard, 20));
    hand_in(&mut server, 100, 10);
    assert!(rt; is_snapshot(serve(&mut server, &mut client, &mut log), 3, 2));
    assert!(rt; holds(&client, 2, 50, 9));
    assert!(rt; holds(&client, 3, 100, 10));
}
