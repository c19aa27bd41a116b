//! Prints events as the lines of a script.

ghost use Rattle.std.specs.Prelude.{◌≤◌, [], ◌∷◌, ◌++◌, length, All, codes, decimal};
ghost use Rattle.std.specs.List.{concat};
ghost use Rattle.q3_io.specs.Faults.{HasCause};
ghost use Rattle.q3_io.specs.Written.{Adds};
ghost use Rattle.q3_clmsg.specs.Report.{move_words, spaced};
ghost use Rattle.q3_script.specs.Grammar.{IsReplayEvent, SpellsScript};
ghost use Rattle.q3_script.specs.Script.{longest_script, most_events};
ghost use Rattle.q3_entity.specs.Report.{fields_text};
ghost use Rattle.q3_player.specs.Report.{player_text};
ghost use Rattle.q3_make.specs.Printed.{number_text, numbers_text, quoted_text, bytes_text, event_text, event_line, script_text};

use q3_clmsg::Move;
use q3_entity::EntityState;
use q3_io::{Address, Failed, Piece, Sink, laws, print_all, print_hex_word};
use q3_player::PlayerState;
use q3_script::{Event, ScriptKind};

/// Prints a replay's script of these events. What is printed reads back as them. `Failed` comes where the sink failed, after a
/// front of the script.
pub fn print_script<O: Sink>(events: &[Event], out: &mut O) -> Result<(), Failed>
    requires each { All IsReplayEvent events.now }
    requires few { length events.now ≤ most_events }
    requires small { length (script_text events.now) ≤ longest_script }
    ensures adds { Adds (O.written out.old) (O.written out.new) (script_text events.now) result }
    ensures cause { HasCause (O.faults out.old) (O.faults out.new) result }
    ensures spells { SpellsScript ScriptKind.Replay (script_text events.now) events.now }
{
    crate::laws::printed_is_spelled();
    print_events(events, out)
}

/// Prints the lines of events.
pub(crate) fn print_events<O: Sink>(events: &[Event], out: &mut O) -> Result<(), Failed>
    ensures adds { Adds (O.written out.old) (O.written out.new) (script_text events.now) result }
    ensures cause { HasCause (O.faults out.old) (O.faults out.new) result }
{
    laws::items_follow::<Event>();
    for event in events {
        print_line(event, out)?;
    }
    Ok(())
}

/// Prints the line of an event.
fn print_line<O: Sink>(event: &Event, out: &mut O) -> Result<(), Failed>
    ensures adds { Adds (O.written out.old) (O.written out.new) (event_line event.now) result }
    ensures cause { HasCause (O.faults out.old) (O.faults out.new) result }
{
    laws::texts_follow();
    print_event(event, out)?;
    out.write_all(b"\n")
}

/// Prints the line of an event, without its newline.
fn print_event<O: Sink>(event: &Event, out: &mut O) -> Result<(), Failed>
    ensures adds { Adds (O.written out.old) (O.written out.new) (event_text event.now) result }
    ensures cause { HasCause (O.faults out.old) (O.faults out.new) result }
{
    match event {
        Event::Client {
            c,
            challenge,
            qport,
            dup,
            address,
        } => print_client(*c, *challenge, *qport, *dup, *address, out),
        Event::Port { c, port } => print_numbers(b"port ", u32::from(*c), u32::from(*port), out),
        Event::Map { id, feed } => print_numbers(b"map ", *id, *feed, out),
        Event::Entity { state } => print_state(b"entity ", &state.state(), out),
        Event::Remove { number } => print_number(b"remove ", u32::from(*number), out),
        Event::Baseline { state } => print_state(b"baseline ", &state.state(), out),
        Event::Player { c, player } => print_player(*c, &player.player(), out),
        Event::Area { c, area } => print_bytes(b"area ", *c, area.as_slice(), out),
        Event::Time { time } => print_number(b"time ", *time, out),
        Event::Config { index, text } => print_quoted(b"config ", *index, text.bytes(), out),
        Event::Say { c, text } => print_quoted(b"say ", u32::from(*c), text.bytes(), out),
        Event::TypeText { c, text } => print_quoted(b"type ", u32::from(*c), text.bytes(), out),
        Event::Move { c, one } => print_move(*c, *one, out),
        Event::Serve { c } => print_number(b"serve ", u32::from(*c), out),
        Event::Send { c } => print_number(b"send ", u32::from(*c), out),
        Event::Deliver { datagram } => print_number(b"deliver ", *datagram, out),
        Event::RecordTo { c, name } => print_recording(*c, name.bytes(), out),
        Event::Stop { c } => print_number(b"stop ", u32::from(*c), out),
        Event::Show { c } => print_number(b"show ", u32::from(*c), out),
        Event::Bytes { datagram } => print_number(b"bytes ", *datagram, out),
        Event::Toclient { c, bytes } => print_bytes(b"toclient ", *c, bytes.bytes(), out),
        Event::Toserver { c, bytes } => print_bytes(b"toserver ", *c, bytes.bytes(), out),
        Event::At { ms } => print_number(b"at ", *ms, out),
        Event::End { ms } => print_number(b"end ", *ms, out),
    }
}

/// Prints the line of a client that joins.
fn print_client<O: Sink>(
    c: u8,
    challenge: u32,
    qport: u16,
    dup: u8,
    address: Address,
    out: &mut O,
) -> Result<(), Failed>
    ensures adds { Adds (O.written out.old) (O.written out.new)
        (event_text (Event.Client c challenge qport dup address)) result }
    ensures cause { HasCause (O.faults out.old) (O.faults out.new) result }
{
    print_all(
        &[
            Piece::Text(b"client "),
            Piece::Number(u64::from(c)),
            Piece::Text(b" "),
            Piece::Number(u64::from(challenge)),
            Piece::Text(b" "),
            Piece::Number(u64::from(qport)),
            Piece::Text(b" "),
            Piece::Number(u64::from(dup)),
            Piece::Text(b" "),
            Piece::Number(u64::from(address.host / 16_777_216)),
            Piece::Text(b"."),
            Piece::Number(u64::from(address.host / 65_536 % 256)),
            Piece::Text(b"."),
            Piece::Number(u64::from(address.host / 256 % 256)),
            Piece::Text(b"."),
            Piece::Number(u64::from(address.host % 256)),
            Piece::Text(b":"),
            Piece::Number(u64::from(address.port)),
        ],
        out,
    )
}

/// Prints a word and a number.
fn print_number<O: Sink>(word: &[u8], number: u32, out: &mut O) -> Result<(), Failed>
    ensures adds { Adds (O.written out.old) (O.written out.new) (number_text word.now number) result }
    ensures cause { HasCause (O.faults out.old) (O.faults out.new) result }
{
    print_all(&[Piece::Text(word), Piece::Number(u64::from(number))], out)
}

/// Prints a word and two numbers.
fn print_numbers<O: Sink>(word: &[u8], first: u32, second: u32, out: &mut O) -> Result<(), Failed>
    ensures adds { Adds (O.written out.old) (O.written out.new) (numbers_text word.now first second) result }
    ensures cause { HasCause (O.faults out.old) (O.faults out.new) result }
{
    print_all(
        &[
            Piece::Text(word),
            Piece::Number(u64::from(first)),
            Piece::Text(b" "),
            Piece::Number(u64::from(second)),
        ],
        out,
    )
}

/// Prints a word, a number and bytes in quotes.
fn print_quoted<'a, O: Sink>(
    word: &'a [u8],
    number: u32,
    bytes: &'a [u8],
    out: &mut O,
) -> Result<(), Failed>
    ensures adds { Adds (O.written out.old) (O.written out.new) (quoted_text word.now number bytes.now) result }
    ensures cause { HasCause (O.faults out.old) (O.faults out.new) result }
{
    print_all(
        &[
            Piece::Text(word),
            Piece::Number(u64::from(number)),
            Piece::Text(b" "),
            Piece::Quoted(bytes),
        ],
        out,
    )
}

/// Prints the line of a client whose messages are recorded.
fn print_recording<O: Sink>(c: u8, name: &[u8], out: &mut O) -> Result<(), Failed>
    ensures adds { Adds (O.written out.old) (O.written out.new)
        (concat (codes "record " ∷ decimal c ∷ codes " " ∷ name.now ∷ [])) result }
    ensures cause { HasCause (O.faults out.old) (O.faults out.new) result }
{
    print_all(
        &[
            Piece::Text(b"record "),
            Piece::Number(u64::from(c)),
            Piece::Text(b" "),
            Piece::Text(name),
        ],
        out,
    )
}

/// Prints a word, a client and bytes in hex.
fn print_bytes<O: Sink>(word: &[u8], c: u8, bytes: &[u8], out: &mut O) -> Result<(), Failed>
    ensures adds { Adds (O.written out.old) (O.written out.new) (bytes_text word.now c bytes.now) result }
    ensures cause { HasCause (O.faults out.old) (O.faults out.new) result }
{
    laws::texts_follow();
    print_front(word, c, out)?;
    print_hex_word(bytes, out)
}

/// Prints a word and a client, with a space after them.
fn print_front<O: Sink>(word: &[u8], c: u8, out: &mut O) -> Result<(), Failed>
    ensures adds { Adds (O.written out.old) (O.written out.new) (concat (word.now ∷ decimal c ∷ codes " " ∷ [])) result }
    ensures cause { HasCause (O.faults out.old) (O.faults out.new) result }
{
    print_all(
        &[
            Piece::Text(word),
            Piece::Number(u64::from(c)),
            Piece::Text(b" "),
        ],
        out,
    )
}

/// Prints a word, and the number of an entity and its fields.
fn print_state<O: Sink>(word: &[u8], state: &EntityState, out: &mut O) -> Result<(), Failed>
    ensures adds { Adds (O.written out.old) (O.written out.new)
        (number_text word.now state.now.number ++ fields_text state.now.words) result }
    ensures cause { HasCause (O.faults out.old) (O.faults out.new) result }
{
    laws::texts_follow();
    print_number(word, u32::from(state.number), out)?;
    q3_entity::print_fields(&state.words, out)
}

/// Prints the line of a client's player.
fn print_player<O: Sink>(c: u8, player: &PlayerState, out: &mut O) -> Result<(), Failed>
    ensures adds { Adds (O.written out.old) (O.written out.new)
        (number_text (codes "player ") c ++ player_text player.now) result }
    ensures cause { HasCause (O.faults out.old) (O.faults out.new) result }
{
    laws::texts_follow();
    print_number(b"player ", u32::from(c), out)?;
    q3_player::print_words(player, out)
}

/// Prints the line of a client's move.
fn print_move<O: Sink>(c: u8, one: Move, out: &mut O) -> Result<(), Failed>
    ensures adds { Adds (O.written out.old) (O.written out.new)
        (number_text (codes "move ") c ++ spaced (move_words one)) result }
    ensures cause { HasCause (O.faults out.old) (O.faults out.new) result }
{
    laws::texts_follow();
    print_number(b"move ", u32::from(c), out)?;
    q3_clmsg::print_move(one, out)
}
