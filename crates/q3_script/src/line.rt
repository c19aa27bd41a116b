//! Reads one line of a script, by the lines that its kind has.

ghost use Rattle.std.specs.Prelude.{◌≡◌, ◌≤◌, ◌∷◌, IfOk};
ghost use Rattle.q3_words.specs.Words.{words_of, words_left};
ghost use Rattle.q3_words.specs.Numbers.{last_client, last_entity};
ghost use Rattle.q3_script.specs.Lines.{client_line, port_line, map_line, entity_line, remove_line, baseline_line, player_line, area_line, time_line, config_at, config_line, command_at, say_line, type_line, send_line, deliver_line, record_at, record_line, stop_line, show_line, bytes_line, hand_at, toclient_line, toserver_line, at_line, end_line, turn_lines, line_in, line_at};
ghost use Rattle.q3_script.specs.Lines as spec;

use crate::cause::ScriptKind;
use crate::event::Event;
use crate::moves::move_line;
use q3_bits::NoMemory;
use q3_text::Text;
use q3_words::words::{first_word, is, next_word, only_word, text_left};
use q3_words::{
    Bytes, KeptEntity, KeptName, KeptPlayer, KeptText, LAST_ENTITY, LineCause, Name, area_bytes,
    client_word, config_bytes, entity_state, entity_word, handed_bytes, number_word, player_state,
    read_address, text_word,
};
use std::alloc::Global;

/// The latest time of a node's script, in milliseconds.
const LAST_TIME: u32 = 3_600_000;

/// The greatest number of a datagram that a line can name.
const LAST_DATAGRAM: u32 = 65_536;

/// The only word, a number from `low` to `high`.
#[tactic(auto, using(crate::proofs::Steps::only_steps))]
fn only_number(left: &[u8], low: u32, high: u32) -> Result<u32, LineCause>
    ensures value { result ≡ spec.only_number low high (words_left left.now) }
    ensures within { IfOk result (λ n. (low ≤ n) × (n ≤ high)) }
{
    let word = only_word(left).ok_or(LineCause::Count)?;
    number_word(word, low, high)
}

/// The only word, the number of a client.
#[tactic(auto, using(crate::proofs::Steps::only_steps))]
fn only_client(left: &[u8]) -> Result<u8, LineCause>
    ensures { result ≡ spec.only_number 0 last_client (words_left left.now) }
{
    let word = only_word(left).ok_or(LineCause::Count)?;
    client_word(word)
}

/// The only word, the number of an entity.
#[tactic(auto, using(crate::proofs::Steps::only_steps))]
fn only_entity(left: &[u8]) -> Result<u16, LineCause>
    ensures { result ≡ spec.only_number 0 last_entity (words_left left.now) }
{
    let word = only_word(left).ok_or(LineCause::Count)?;
    entity_word(word)
}

#[tactic(auto, using(crate::proofs::Steps::client_steps))]
fn client(left: &[u8]) -> Result<Event, LineCause>
    ensures { result ≡ client_line (words_left left.now) }
{
    let (c, left) = next_word(left).ok_or(LineCause::Count)?;
    let (challenge, left) = next_word(left).ok_or(LineCause::Count)?;
    let (qport, left) = next_word(left).ok_or(LineCause::Count)?;
    let (dup, left) = next_word(left).ok_or(LineCause::Count)?;
    let host = only_word(left).ok_or(LineCause::Count)?;
    Ok(Event::Client {
        c: client_word(c)?,
        challenge: number_word(challenge, 0, u32::MAX)?,
        qport: number_word(qport, 0, 65_535)? as u16,
        dup: number_word(dup, 0, 5)? as u8,
        address: read_address(host).ok_or(LineCause::Address)?,
    })
}

#[tactic(auto, using(crate::proofs::Steps::port_steps))]
fn port(left: &[u8]) -> Result<Event, LineCause>
    ensures { result ≡ port_line (words_left left.now) }
{
    let (c, left) = next_word(left).ok_or(LineCause::Count)?;
    let port = only_word(left).ok_or(LineCause::Count)?;
    Ok(Event::Port {
        c: client_word(c)?,
        port: number_word(port, 1, 65_535)? as u16,
    })
}

#[tactic(auto, using(crate::proofs::Steps::map_steps))]
fn map(left: &[u8]) -> Result<Event, LineCause>
    ensures { result ≡ map_line (words_left left.now) }
{
    let (id, left) = next_word(left).ok_or(LineCause::Count)?;
    let feed = only_word(left).ok_or(LineCause::Count)?;
    Ok(Event::Map {
        id: number_word(id, 1, 2_147_483_647)?,
        feed: number_word(feed, 0, u32::MAX)?,
    })
}

/// An `entity` line. `Err` is want of memory.
#[tactic(auto, using(crate::proofs::Steps::entity_steps))]
fn entity(alloc: Global, left: &[u8]) -> Result<Result<Event, LineCause>, NoMemory>
    ensures { IfOk result (λ answer. answer ≡ entity_line (words_left left.now)) }
{
    let Some((number, left)) = next_word(left) else {
        return Ok(Err(LineCause::Count));
    };
    let number = match entity_word(number) {
        Ok(number) => number,
        Err(cause) => return Ok(Err(cause)),
    };
    match entity_state(number, left) {
        Ok(state) => Ok(Ok(Event::Entity {
            state: KeptEntity::of(alloc, &state)?,
        })),
        Err(cause) => Ok(Err(cause)),
    }
}

#[tactic(auto, unfolding(crate::specs::Lines::remove_line))]
fn remove(left: &[u8]) -> Result<Event, LineCause>
    ensures { result ≡ remove_line (words_left left.now) }
{
    Ok(Event::Remove {
        number: only_entity(left)?,
    })
}

/// A `baseline` line. `Err` is want of memory.
#[tactic(auto, using(crate::proofs::Steps::baseline_steps))]
fn baseline(alloc: Global, left: &[u8]) -> Result<Result<Event, LineCause>, NoMemory>
    ensures { IfOk result (λ answer. answer ≡ baseline_line (words_left left.now)) }
{
    let Some((number, left)) = next_word(left) else {
        return Ok(Err(LineCause::Count));
    };
    let number = match number_word(number, 1, LAST_ENTITY) {
        Ok(number) => number as u16,
        Err(cause) => return Ok(Err(cause)),
    };
    match entity_state(number, left) {
        Ok(state) => Ok(Ok(Event::Baseline {
            state: KeptEntity::of(alloc, &state)?,
        })),
        Err(cause) => Ok(Err(cause)),
    }
}

/// A `player` line. `Err` is want of memory.
#[tactic(auto, using(crate::proofs::Steps::player_steps))]
fn player(alloc: Global, left: &[u8]) -> Result<Result<Event, LineCause>, NoMemory>
    ensures { IfOk result (λ answer. answer ≡ player_line (words_left left.now)) }
{
    let Some((c, left)) = next_word(left) else {
        return Ok(Err(LineCause::Count));
    };
    let c = match client_word(c) {
        Ok(c) => c,
        Err(cause) => return Ok(Err(cause)),
    };
    match player_state(left) {
        Ok(player) => Ok(Ok(Event::Player {
            c,
            player: KeptPlayer::of(alloc, &player)?,
        })),
        Err(cause) => Ok(Err(cause)),
    }
}

#[tactic(auto, using(crate::proofs::Steps::area_steps))]
fn area(left: &[u8]) -> Result<Event, LineCause>
    ensures { result ≡ area_line (words_left left.now) }
{
    let (c, left) = next_word(left).ok_or(LineCause::Count)?;
    let word = only_word(left).ok_or(LineCause::Count)?;
    Ok(Event::Area {
        c: client_word(c)?,
        area: area_bytes(word).ok_or(LineCause::Number)?,
    })
}

#[tactic(auto, unfolding(crate::specs::Lines::time_line))]
fn time(left: &[u8]) -> Result<Event, LineCause>
    ensures { result ≡ time_line (words_left left.now) }
{
    Ok(Event::Time {
        time: only_number(left, 0, u32::MAX)?,
    })
}

/// An index, and the text of its config string. `Err` is want of memory.
#[tactic(auto, using(crate::proofs::Steps::config_steps))]
fn config_text(alloc: Global, left: &[u8]) -> Result<Result<(u32, Bytes), LineCause>, NoMemory>
    ensures { IfOk result (λ answer. answer ≡ config_at (words_left left.now)) }
{
    let Some((index, left)) = next_word(left) else {
        return Ok(Err(LineCause::Count));
    };
    let Some(text) = text_left(left) else {
        return Ok(Err(LineCause::Count));
    };
    let index = match number_word(index, 0, u32::MAX) {
        Ok(index) => index,
        Err(cause) => return Ok(Err(cause)),
    };
    match config_bytes(alloc, text)? {
        Some(text) => Ok(Ok((index, text))),
        None => Ok(Err(LineCause::Text)),
    }
}

/// A `config` line. Such lines are few: apart, their code doesn't slow down the others.
#[tactic(auto, unfolding(crate::specs::Lines::config_line))]
#[inline(never)]
fn config(alloc: Global, left: &[u8]) -> Result<Result<Event, LineCause>, NoMemory>
    ensures { IfOk result (λ answer. answer ≡ config_line (words_left left.now)) }
{
    match config_text(alloc, left)? {
        Ok((index, text)) => Ok(Ok(Event::Config { index, text })),
        Err(cause) => Ok(Err(cause)),
    }
}

/// A client, and the text of the command to it or from it.
#[tactic(auto, using(crate::proofs::Steps::command_steps))]
fn command_text(left: &[u8]) -> Result<(u8, Text), LineCause>
    ensures { result ≡ command_at (words_left left.now) }
{
    let (c, left) = next_word(left).ok_or(LineCause::Count)?;
    let text = text_left(left).ok_or(LineCause::Count)?;
    Ok((client_word(c)?, text_word(text)?))
}

/// A client, and the command to it or from it. `Err` is want of memory.
fn command(alloc: Global, left: &[u8]) -> Result<Result<(u8, KeptText), LineCause>, NoMemory>
    ensures { IfOk result (λ answer. answer ≡ command_at (words_left left.now)) }
{
    match command_text(left) {
        Ok((c, text)) => Ok(Ok((c, KeptText::of(alloc, &text)?))),
        Err(cause) => Ok(Err(cause)),
    }
}

/// A `say` line. `Err` is want of memory.
#[tactic(auto, unfolding(crate::specs::Lines::say_line))]
fn say(alloc: Global, left: &[u8]) -> Result<Result<Event, LineCause>, NoMemory>
    ensures { IfOk result (λ answer. answer ≡ say_line (words_left left.now)) }
{
    match command(alloc, left)? {
        Ok((c, text)) => Ok(Ok(Event::Say { c, text })),
        Err(cause) => Ok(Err(cause)),
    }
}

/// A `type` line. `Err` is want of memory.
#[tactic(auto, unfolding(crate::specs::Lines::type_line))]
fn type_text(alloc: Global, left: &[u8]) -> Result<Result<Event, LineCause>, NoMemory>
    ensures { IfOk result (λ answer. answer ≡ type_line (words_left left.now)) }
{
    match command(alloc, left)? {
        Ok((c, text)) => Ok(Ok(Event::TypeText { c, text })),
        Err(cause) => Ok(Err(cause)),
    }
}

#[tactic(auto, unfolding(crate::specs::Lines::serve_line))]
fn serve(left: &[u8]) -> Result<Event, LineCause>
    ensures { result ≡ spec.serve_line (words_left left.now) }
{
    Ok(Event::Serve {
        c: only_client(left)?,
    })
}

#[tactic(auto, unfolding(crate::specs::Lines::send_line))]
fn send(left: &[u8]) -> Result<Event, LineCause>
    ensures { result ≡ send_line (words_left left.now) }
{
    Ok(Event::Send {
        c: only_client(left)?,
    })
}

#[tactic(auto, unfolding(crate::specs::Lines::deliver_line))]
fn deliver(left: &[u8]) -> Result<Event, LineCause>
    ensures { result ≡ deliver_line (words_left left.now) }
{
    Ok(Event::Deliver {
        datagram: only_number(left, 1, LAST_DATAGRAM)?,
    })
}

/// A client, and the name of the file that it records into.
#[tactic(auto, using(crate::proofs::Steps::record_steps))]
fn record_name(left: &[u8]) -> Result<(u8, Name), LineCause>
    ensures { result ≡ record_at (words_left left.now) }
{
    let (c, left) = next_word(left).ok_or(LineCause::Count)?;
    let word = only_word(left).ok_or(LineCause::Count)?;
    Ok((client_word(c)?, Name::of(word).ok_or(LineCause::Name)?))
}

/// A `record` line, kept out of line as `config` is. `Err` is want of memory.
#[tactic(auto, unfolding(crate::specs::Lines::record_line))]
#[inline(never)]
fn record_to(alloc: Global, left: &[u8]) -> Result<Result<Event, LineCause>, NoMemory>
    ensures { IfOk result (λ answer. answer ≡ record_line (words_left left.now)) }
{
    match record_name(left) {
        Ok((c, name)) => Ok(Ok(Event::RecordTo {
            c,
            name: KeptName::of(alloc, &name)?,
        })),
        Err(cause) => Ok(Err(cause)),
    }
}

#[tactic(auto, unfolding(crate::specs::Lines::stop_line))]
fn stop(left: &[u8]) -> Result<Event, LineCause>
    ensures { result ≡ stop_line (words_left left.now) }
{
    Ok(Event::Stop {
        c: only_client(left)?,
    })
}

#[tactic(auto, unfolding(crate::specs::Lines::show_line))]
fn show(left: &[u8]) -> Result<Event, LineCause>
    ensures { result ≡ show_line (words_left left.now) }
{
    Ok(Event::Show {
        c: only_client(left)?,
    })
}

#[tactic(auto, unfolding(crate::specs::Lines::bytes_line))]
fn bytes(left: &[u8]) -> Result<Event, LineCause>
    ensures { result ≡ bytes_line (words_left left.now) }
{
    Ok(Event::Bytes {
        datagram: only_number(left, 1, LAST_DATAGRAM)?,
    })
}

/// A client, and the bytes that are handed to it, or to the server from it. `Err` is want of memory.
#[tactic(auto, using(crate::proofs::Steps::hand_steps))]
fn hand(alloc: Global, left: &[u8]) -> Result<Result<(u8, Bytes), LineCause>, NoMemory>
    ensures { IfOk result (λ answer. answer ≡ hand_at (words_left left.now)) }
{
    let Some((c, left)) = next_word(left) else {
        return Ok(Err(LineCause::Count));
    };
    let Some(word) = only_word(left) else {
        return Ok(Err(LineCause::Count));
    };
    let c = match client_word(c) {
        Ok(c) => c,
        Err(cause) => return Ok(Err(cause)),
    };
    match handed_bytes(alloc, word)? {
        Some(bytes) => Ok(Ok((c, bytes))),
        None => Ok(Err(LineCause::Number)),
    }
}

/// A `toclient` line, kept out of line as `config` is. `Err` is want of memory.
#[tactic(auto, unfolding(crate::specs::Lines::toclient_line))]
#[inline(never)]
fn toclient(alloc: Global, left: &[u8]) -> Result<Result<Event, LineCause>, NoMemory>
    ensures { IfOk result (λ answer. answer ≡ toclient_line (words_left left.now)) }
{
    match hand(alloc, left)? {
        Ok((c, bytes)) => Ok(Ok(Event::Toclient { c, bytes })),
        Err(cause) => Ok(Err(cause)),
    }
}

/// A `toserver` line, kept out of line as `config` is. `Err` is want of memory.
#[tactic(auto, unfolding(crate::specs::Lines::toserver_line))]
#[inline(never)]
fn toserver(alloc: Global, left: &[u8]) -> Result<Result<Event, LineCause>, NoMemory>
    ensures { IfOk result (λ answer. answer ≡ toserver_line (words_left left.now)) }
{
    match hand(alloc, left)? {
        Ok((c, bytes)) => Ok(Ok(Event::Toserver { c, bytes })),
        Err(cause) => Ok(Err(cause)),
    }
}

#[tactic(auto, unfolding(crate::specs::Lines::at_line))]
fn at(left: &[u8]) -> Result<Event, LineCause>
    ensures { result ≡ at_line (words_left left.now) }
{
    Ok(Event::At {
        ms: only_number(left, 0, LAST_TIME)?,
    })
}

#[tactic(auto, unfolding(crate::specs::Lines::end_line))]
fn end(left: &[u8]) -> Result<Event, LineCause>
    ensures { result ≡ end_line (words_left left.now) }
{
    Ok(Event::End {
        ms: only_number(left, 0, LAST_TIME)?,
    })
}

/// The event of a replay's line by which an end does something or is looked at. `Err` is want of memory.
fn turn_line(alloc: Global, word: &[u8], left: &[u8]) -> Result<Result<Event, LineCause>, NoMemory>
    ensures { IfOk result (λ answer. answer ≡ line_in turn_lines word.now (words_left left.now)) }
{
    if is(word, b"serve") {
        Ok(serve(left))
    } else if is(word, b"send") {
        Ok(send(left))
    } else if is(word, b"deliver") {
        Ok(deliver(left))
    } else if is(word, b"record") {
        record_to(alloc, left)
    } else if is(word, b"stop") {
        Ok(stop(left))
    } else if is(word, b"show") {
        Ok(show(left))
    } else if is(word, b"bytes") {
        Ok(bytes(left))
    } else {
        Ok(Err(LineCause::Word))
    }
}

/// The event of a replay's line that begins with this word. `Err` is want of memory.
#[tactic(auto, unfolding(crate::specs::Lines::line_at))]
fn replay_line(
    alloc: Global,
    word: &[u8],
    left: &[u8],
) -> Result<Result<Event, LineCause>, NoMemory>
    ensures { IfOk result (λ answer. answer ≡ line_at ScriptKind.Replay (word.now ∷ words_left left.now)) }
{
    if is(word, b"client") {
        Ok(client(left))
    } else if is(word, b"port") {
        Ok(port(left))
    } else if is(word, b"toclient") {
        toclient(alloc, left)
    } else if is(word, b"toserver") {
        toserver(alloc, left)
    } else if is(word, b"map") {
        Ok(map(left))
    } else if is(word, b"entity") {
        entity(alloc, left)
    } else if is(word, b"remove") {
        Ok(remove(left))
    } else if is(word, b"baseline") {
        baseline(alloc, left)
    } else if is(word, b"player") {
        player(alloc, left)
    } else if is(word, b"area") {
        Ok(area(left))
    } else if is(word, b"time") {
        Ok(time(left))
    } else if is(word, b"config") {
        config(alloc, left)
    } else if is(word, b"say") {
        say(alloc, left)
    } else if is(word, b"type") {
        type_text(alloc, left)
    } else if is(word, b"move") {
        Ok(move_line(left))
    } else {
        turn_line(alloc, word, left)
    }
}

/// The event of a line of a server's script that begins with this word. `Err` is want of memory.
#[tactic(auto, unfolding(crate::specs::Lines::line_at))]
#[inline(never)]
fn serve_line(alloc: Global, word: &[u8], left: &[u8]) -> Result<Result<Event, LineCause>, NoMemory>
    ensures { IfOk result (λ answer. answer ≡ line_at ScriptKind.Serve (word.now ∷ words_left left.now)) }
{
    if is(word, b"client") {
        Ok(client(left))
    } else if is(word, b"map") {
        Ok(map(left))
    } else if is(word, b"entity") {
        entity(alloc, left)
    } else if is(word, b"remove") {
        Ok(remove(left))
    } else if is(word, b"baseline") {
        baseline(alloc, left)
    } else if is(word, b"player") {
        player(alloc, left)
    } else if is(word, b"area") {
        Ok(area(left))
    } else if is(word, b"time") {
        Ok(time(left))
    } else if is(word, b"config") {
        config(alloc, left)
    } else if is(word, b"say") {
        say(alloc, left)
    } else if is(word, b"serve") {
        Ok(serve(left))
    } else if is(word, b"at") {
        Ok(at(left))
    } else if is(word, b"end") {
        Ok(end(left))
    } else {
        Ok(Err(LineCause::Word))
    }
}

/// The event of a line of a client's script that begins with this word. `Err` is want of memory.
#[tactic(auto, unfolding(crate::specs::Lines::line_at))]
#[inline(never)]
fn join_line(alloc: Global, word: &[u8], left: &[u8]) -> Result<Result<Event, LineCause>, NoMemory>
    ensures { IfOk result (λ answer. answer ≡ line_at ScriptKind.Join (word.now ∷ words_left left.now)) }
{
    if is(word, b"client") {
        Ok(client(left))
    } else if is(word, b"type") {
        type_text(alloc, left)
    } else if is(word, b"move") {
        Ok(move_line(left))
    } else if is(word, b"send") {
        Ok(send(left))
    } else if is(word, b"record") {
        record_to(alloc, left)
    } else if is(word, b"stop") {
        Ok(stop(left))
    } else if is(word, b"show") {
        Ok(show(left))
    } else if is(word, b"at") {
        Ok(at(left))
    } else if is(word, b"end") {
        Ok(end(left))
    } else {
        Ok(Err(LineCause::Word))
    }
}

/// The event that a line of a script of this kind spells, or the first cause for which it is refused. `Err` is want of memory.
pub fn read_line(
    alloc: Global,
    kind: ScriptKind,
    line: &[u8],
) -> Result<Result<Event, LineCause>, NoMemory>
    ensures { IfOk result (λ answer. answer ≡ line_at kind (words_of line.now)) }
{
    let (word, left) = first_word(line);
    match kind {
        ScriptKind::Replay => replay_line(alloc, word, left),
        ScriptKind::Serve => serve_line(alloc, word, left),
        ScriptKind::Join => join_line(alloc, word, left),
    }
}
