//! Makes the script of a seed: lines that open it, drawn lines, and lines that close it.

ghost use Rattle.std.specs.Prelude.{◌≡◌, ◌+◌, ◌*◌, ◌≤◌, ◌++◌, length, map, All, IfOk};
ghost use Rattle.std.specs.List.{flat_map, range_with_len};
ghost use Rattle.q3_script.specs.Grammar.{IsReplayEvent};
ghost use Rattle.q3_script.specs.Script.{longest_script, most_events};
ghost use Rattle.q3_make.specs.Printed.{script_text};
ghost use Rattle.q3_make.specs.Generated.{first_turns, last_turn, last_turns, opening, closing, rest_of, generated};
ghost use Rattle.q3_make.specs.Generated as spec;

use crate::draw::entity_with;
use crate::drawn::Drawn;
use q3_bits::NoMemory;
use q3_clmsg::Move;
use q3_io::Address;
use q3_script::Event;
use q3_words::KeptEntity;
use std::alloc::Global;

/// How many lines open a script.
const OPENING_LINES: usize = 122;

/// How many lines close a script.
const CLOSING_LINES: usize = 404;

/// The script that a seed makes, with so many drawn lines: it goes through joining, maps, the game, and delivery of late,
/// repeated and lost datagrams, and ends with twenty turns of each client without loss. `Err` is want of memory.
pub fn make_script(alloc: Global, number: u32, seed: u64) -> Result<Vec<Event>, NoMemory>
    requires some { 1 ≤ number }
    requires few { number ≤ 65000 }
    ensures made { IfOk result (λ events. events.items ≡ generated number seed) }
    ensures count { IfOk result (λ events. length events.items ≡ number + 526) }
    // What `print_script` asks of events.
    ensures each { IfOk result (λ events. All IsReplayEvent events.items) }
    ensures few { IfOk result (λ events. length events.items ≤ most_events) }
    ensures small { IfOk result (λ events. length (script_text events.items) ≤ longest_script) }
{
    crate::laws::generated_are_events();
    let mut events = Vec::with_capacity(alloc, OPENING_LINES + number as usize + CLOSING_LINES)?;
    push_opening(alloc, &mut events)?;
    let mut drawn = Drawn::new(seed);
    push_drawn(alloc, number, &mut drawn, &mut events)?;
    push_closing(drawn.made(), &mut events)?;
    Ok(events)
}

/// The lines that open each generated script. `Err` is want of memory.
pub fn opening_lines(alloc: Global) -> Result<Vec<Event>, NoMemory>
    ensures lines { IfOk result (λ events. events.items ≡ opening) }
    ensures count { IfOk result (λ events. length events.items ≡ 122) }
    ensures each { IfOk result (λ events. All IsReplayEvent events.items) }
{
    let mut events = Vec::with_capacity(alloc, OPENING_LINES)?;
    push_opening(alloc, &mut events)?;
    Ok(events)
}

/// The lines that close a generated script, after the lines so far. `Err` is want of memory.
pub fn closing_lines(alloc: Global, drawn: &Drawn) -> Result<Vec<Event>, NoMemory>
    ensures lines { IfOk result (λ events. events.items ≡ closing drawn.now.made) }
    ensures rest { IfOk result (λ events. rest_of 0 drawn.now ≡ events.items) }
    ensures count { IfOk result (λ events. length events.items ≡ 404) }
    ensures each { IfOk result (λ events. All IsReplayEvent events.items) }
{
    let mut events = Vec::with_capacity(alloc, CLOSING_LINES)?;
    push_closing(drawn.made(), &mut events)?;
    Ok(events)
}

/// Puts the opening lines after others.
#[tactic(auto, unfolding(crate::specs::Generated::opening))]
fn push_opening(alloc: Global, events: &mut Vec<Event>) -> Result<(), NoMemory>
    ensures { IfOk result (λ _. events.new.items ≡ events.old.items ++ opening) }
{
    push_clients(events)?;
    events.push(Event::Map { id: 1, feed: 4_242 })?;
    push_baselines(alloc, events)?;
    push_entities(alloc, events)?;
    events.push(Event::Time { time: 1_000 })?;
    push_first_turns(events)?;
    Ok(())
}

/// Four clients join.
fn push_clients(events: &mut Vec<Event>) -> Result<(), NoMemory>
    ensures { IfOk result (λ _. events.new.items ≡ events.old.items ++ map spec.joins (range_with_len 0 4)) }
{
    for c in 0..4 {
        events.push(joins(c))?;
    }
    Ok(())
}

/// The client of a number joins.
fn joins(c: u8) -> Event
    requires { c ≤ 3 }
    ensures { result ≡ spec.joins c }
{
    Event::Client {
        c,
        challenge: 1_000 + u32::from(c),
        qport: 5_000 + u16::from(c),
        dup: c,
        address: Address {
            host: 0x0a00_0001 + u32::from(c),
            port: 27_960,
        },
    }
}

/// Forty baselines.
fn push_baselines(alloc: Global, events: &mut Vec<Event>) -> Result<(), NoMemory>
    ensures { IfOk result (λ _. events.new.items ≡ events.old.items ++ map (λ n. Event.Baseline (spec.entity_with n 1 n))
        (range_with_len 1 40)) }
{
    for k in 0..40 {
        events.push(Event::Baseline {
            state: KeptEntity::of(alloc, &entity_with(1 + k, 1, u32::from(1 + k)))?,
        })?;
    }
    Ok(())
}

/// Forty entities.
fn push_entities(alloc: Global, events: &mut Vec<Event>) -> Result<(), NoMemory>
    ensures { IfOk result (λ _. events.new.items ≡ events.old.items ++ map (λ n. Event.Entity (spec.entity_with n 1 n))
        (range_with_len 1 40)) }
{
    for k in 0..40 {
        events.push(Event::Entity {
            state: KeptEntity::of(alloc, &entity_with(1 + k, 1, u32::from(1 + k)))?,
        })?;
    }
    Ok(())
}

/// The first turns of each client.
fn push_first_turns(events: &mut Vec<Event>) -> Result<(), NoMemory>
    ensures { IfOk result (λ _. events.new.items ≡ events.old.items ++ flat_map (λ c. first_turns c (4 * c))
        (range_with_len 0 4)) }
{
    for c in 0..4 {
        push_first(c, 4 * u32::from(c), events)?;
    }
    Ok(())
}

/// The first turns of a client, after so many datagrams.
fn push_first(c: u8, made: u32, events: &mut Vec<Event>) -> Result<(), NoMemory>
    requires { made ≤ 100000 }
    ensures { IfOk result (λ _. events.new.items ≡ events.old.items ++ first_turns c made) }
{
    events.push(Event::Serve { c })?;
    events.push(Event::Deliver { datagram: made + 1 })?;
    events.push(Event::Send { c })?;
    events.push(Event::Deliver { datagram: made + 2 })?;
    events.push(Event::Serve { c })?;
    events.push(Event::Deliver { datagram: made + 3 })?;
    events.push(Event::Move {
        c,
        one: still(1_000),
    })?;
    events.push(Event::Send { c })?;
    events.push(Event::Deliver { datagram: made + 4 })?;
    Ok(())
}

/// The move of a player who stands still.
fn still(time: u32) -> Move
    ensures { result ≡ spec.still time }
{
    let mut one = Move::none();
    one.time = time;
    one
}

/// Puts so many drawn lines after others.
fn push_drawn(
    alloc: Global,
    number: u32,
    drawn: &mut Drawn,
    events: &mut Vec<Event>,
) -> Result<(), NoMemory>
    requires { drawn.old.drawn + number ≤ 65000 }
    ensures { IfOk result (λ _. events.new.items ++ rest_of 0 drawn.new ≡ events.old.items
        ++ rest_of number drawn.old) }
{
    for _ in 0..number {
        events.push(drawn.next(alloc)?)?;
    }
    Ok(())
}

/// Puts the closing lines after others.
#[tactic(auto, unfolding(crate::specs::Generated::closing))]
fn push_closing(made: u32, events: &mut Vec<Event>) -> Result<(), NoMemory>
    requires { made ≤ 100000 }
    ensures { IfOk result (λ _. events.new.items ≡ events.old.items ++ closing made) }
{
    for c in 0..4 {
        push_last_turns(c, made + 40 * u32::from(c), events)?;
    }
    Ok(())
}

/// The last turns of a client, after so many datagrams, and its newest snapshot.
fn push_last_turns(c: u8, made: u32, events: &mut Vec<Event>) -> Result<(), NoMemory>
    requires { made ≤ 200000 }
    ensures { IfOk result (λ _. events.new.items ≡ events.old.items ++ last_turns c made) }
{
    push_twenty(c, made, events)?;
    events.push(Event::Show { c })?;
    Ok(())
}

/// Twenty turns of a client.
fn push_twenty(c: u8, made: u32, events: &mut Vec<Event>) -> Result<(), NoMemory>
    requires { made ≤ 200000 }
    ensures { IfOk result (λ _. events.new.items ≡ events.old.items ++ flat_map
        (λ k. last_turn c (made + 2 * k) (1000001 + k)) (range_with_len 0 20)) }
{
    for k in 0..20 {
        push_turn(c, made + 2 * k, 1_000_001 + k, events)?;
    }
    Ok(())
}

/// A datagram from the server and one to it with a move, each delivered.
fn push_turn(c: u8, made: u32, time: u32, events: &mut Vec<Event>) -> Result<(), NoMemory>
    requires { made ≤ 300000 }
    ensures { IfOk result (λ _. events.new.items ≡ events.old.items ++ last_turn c made time) }
{
    events.push(Event::Serve { c })?;
    events.push(Event::Deliver { datagram: made + 1 })?;
    events.push(Event::Move {
        c,
        one: still(time),
    })?;
    events.push(Event::Send { c })?;
    events.push(Event::Deliver { datagram: made + 2 })?;
    Ok(())
}
