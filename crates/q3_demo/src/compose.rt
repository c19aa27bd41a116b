//! Messages that a recording composes, and the bytes of its records.

ghost use Rattle.std.specs.Prelude.{◌≡◌, ◌≤◌, [], ◌++◌, length, take, None, IfSome, IsSome, IsOk};
ghost use Rattle.byteorder.specs.Endian.{little_bytes};
ghost use Rattle.q3_bits.specs.Streams.{Fills};
ghost use Rattle.q3_rings.specs.Rings.{view_at};
ghost use Rattle.q3_demo.specs.Records.{longest_record};
ghost use Rattle.q3_demo.specs.Recording.{game_bits, front_at, fronted, whole_of, whole_bits};

use q3_bits::{LONG, Overflow, Reader};
use q3_clstate::ClState;
use q3_entity_ring::PLACES;
use q3_gamestate::Numbers;
use q3_strings::{OperationError, read_row};
use q3_svmsg::{GameParts, SERVER_COMMAND, SnapParts, write_game_parts, write_parts};
use q3_text::{CommandRun, Commands};

/// Writes the gamestate that a client has to the front of a buffer of 16,384 bytes, as a message whose leading long is the number of the
/// last command that the client issued, and answers its length. `Overflow` comes exactly where it is longer.
pub fn compose_game(state: &ClState, issued: u32, into: &mut [u8]) -> Result<usize, Overflow>
    requires room { length into.old ≡ longest_record }
    ensures { Fills into.old into.new (game_bits state.now issued) result }
{
    let parts = GameParts {
        ack: issued,
        commands: CommandRun {
            head: &[],
            tail: &[],
        },
        numbers: Numbers {
            command: state.executed(),
            slot: state.slot(),
            feed: state.feed(),
        },
        configs: state.configs(),
        baselines: state.baselines(),
    };
    write_game_parts(state.profile(), parts, into)
}

/// Writes the message that a client applied last to the front of a buffer of 16,384 bytes, with its leading long and its commands, and
/// its snapshot, which was accepted, whole; and answers its length. `Overflow` comes exactly where it is longer.
pub fn compose_whole(
    state: &ClState,
    message: &[u8],
    commands: &mut Commands,
    into: &mut [u8],
) -> Result<usize, Overflow>
    requires front { IsOk (front_at state.now.profile.code message.now) }
    requires held { IsSome (view_at state.now.held state.now.number) }
    requires room { length into.old ≡ longest_record }
    ensures { IfSome (whole_of state.now message.now) (λ whole. Fills into.old into.new
        (whole_bits state.now whole) result) }
{
    let number = state.number();
    let Ok(ack) = read_front(state, message, commands) else {
        unreachable!()
    };
    let Some(view) = state.view(number) else {
        unreachable!()
    };
    let Some(held) = state.held((number % PLACES) as u8) else {
        unreachable!()
    };
    let parts = SnapParts {
        ack,
        commands: CommandRun {
            head: commands.as_slice(),
            tail: &[],
        },
        base: 0,
        head: held.head,
        entities: view.entities,
    };
    write_parts(state.profile(), parts, state.baselines(), None, into)
}

/// Reads what a message says before its section: its leading long, which is the answer, and its commands.
fn read_front(
    state: &ClState,
    message: &[u8],
    commands: &mut Commands,
) -> Result<u32, OperationError>
    ensures { fronted commands.new result ≡ front_at state.now.profile.code message.now }
{
    commands.clear();
    let mut r = Reader::new(&state.profile().code, message);
    let ack = r.get(LONG)?;
    read_row(&mut r, SERVER_COMMAND, commands)?;
    Ok(ack)
}
