//! The turns of a node. Keeps the rule "over a wire".

ghost use Rattle.std.specs.Prelude.{◌≡◌, ◌<◌, ◌≤◌, ◌+◌, ◌-◌, if◌then◌else◌, true, List, Option, None, Some, length, drop, All, option_map, IfSome, IsSome, OnOk};
ghost use Rattle.q3_io.specs.Written.{NothingWaits};
ghost use Rattle.q3_io.specs.Traffic.{Parcel};
ghost use Rattle.q3_script.specs.declared.event.Event.{Event as EventValue};
ghost use Rattle.q3_script.specs.Grammar.{IsInRange};
ghost use Rattle.q3_script.specs.Script.{most_events};
ghost use Rattle.q3_node.specs.declared.turns.Course.{Course as CourseValue};
ghost use Rattle.q3_node.specs.Node.{receive_room, start_at, due, line_turn, receive_turn, new_node};
ghost use Rattle.q3_node.specs.Node as spec;
ghost use Rattle.q3_ends.specs.Recording.{HasFile};
ghost use Rattle.q3_node.specs.Running.{effects, DoesTurn, TakesTurn, RanNode, StaysFlushed, node_of, IsOn, WireCause, WriteCause, FileCause};

use crate::end::End;
use crate::error::NodeError;
use q3_io::{Clock, Files, Sink, Wire, laws};
use q3_script::Event;
use std::alloc::Global;

/// How many turns a node has.
const MOST_TURNS: u32 = 10_000_000;

/// The room of a receive, in bytes.
pub(crate) const RECEIVE_ROOM: usize = 16_400;

/// How far a node is in its lines.
#[derive(Clone, Copy, Debug, PartialEq, Eq)]
pub(crate) struct Course {
    /// The place of the next line, 0 for the first.
    pub next: usize,
    /// The time that the lines before it said, in milliseconds since the first reading of the clock.
    pub time: u32,
    /// The first reading of the clock, in milliseconds, if one was taken.
    pub start: Option<u64>,
    /// How many datagrams were made.
    pub made: u32,
}

impl Course {
    /// Before the first turn.
    fn new() -> Course
        ensures { result ≡ record { next = 0; time = 0; start = None; made = 0 } }
    {
        Course {
            next: 0,
            time: 0,
            start: None,
            made: 0,
        }
    }

    /// Milliseconds from the first reading to this one.
    fn since_start(&mut self, reading: u64) -> u64
        ensures course { self.new ≡ record self.old { start = Some (start_at self.old.start reading) } }
        ensures time { result ≡ reading - start_at self.old.start reading }
    {
        let start = *self.start.get_or_insert(reading);
        reading.saturating_sub(start)
    }

    /// The next line, if it is due at this time.
    fn next_due<'a>(&self, events: &'a [Event], ms: u64) -> Option<&'a Event>
        requires { All IsInRange events.now }
        ensures due { option_map (λ event. event.now) result ≡ due self.now.time ms (drop self.now.next events.now) }
        ensures there { IsSome result → self.now.next < length events.now }
        ensures range { IfSome result (λ event. IsInRange event.now) }
    {
        let event = events.get(self.next)?;
        if u64::from(due_at(self.time, event)) <= ms {
            Some(event)
        } else {
            None
        }
    }

    /// Goes on after a line, which made a datagram or none.
    fn go_on(&mut self, event: &Event, made: bool)
        requires few { (self.old.next < most_events) × (self.old.made < most_events) }
        ensures { self.new ≡ record self.old {
          next = self.old.next + 1;
          time = spec.time_after self.old.time event.now;
          made = if made then self.old.made + 1 else self.old.made;
        } }
    {
        self.next += 1;
        self.time = time_after(self.time, event);
        if made {
            self.made += 1;
        }
    }
}

/// When a line is due that comes after this time.
fn due_at(time: u32, event: &Event) -> u32
    ensures { result ≡ spec.due_at time event.now }
{
    match event {
        Event::End { ms } => *ms,
        _ => time,
    }
}

/// The time after a line.
fn time_after(time: u32, event: &Event) -> u32
    ensures { result ≡ spec.time_after time event.now }
{
    match event {
        Event::At { ms } => *ms,
        _ => time,
    }
}

/// Whether a line is `end`.
fn is_end(event: &Event) -> bool
    ensures { result ≡ spec.is_end event.now }
{
    matches!(event, Event::End { .. })
}

/// Runs a node by these lines, over a wire that is bound, until it did `end`. It records nothing at first.
pub(crate) fn run_turns<E: End, F: Files, W: Wire, C: Clock, O: Sink>(
    alloc: Global,
    end: &mut E,
    events: &[Event],
    buffer: &mut [u8],
    files: &mut F,
    wire: &mut W,
    clock: &mut C,
    out: &mut O,
) -> Result<(), NodeError>
    requires bound { W.bound wire.old ≡ true }
    requires lines { All IsInRange events.now }
    requires few { length events.now ≤ most_events }
    requires room { length buffer.old ≡ receive_room }
    requires none { E.records end.old ≡ None }
    ensures bound { W.bound wire.new ≡ true }
    ensures ran { RanNode E.rules (new_node end.old events.now) (C.readings clock.old) (C.readings clock.new)
        (effects (O.written out.old) (W.told wire.old) (F.told files.old))
        (effects (O.written out.new) (W.told wire.new) (F.told files.new)) result }
    ensures flushed { StaysFlushed (O.written out.old) (O.written out.new) result }
    ensures wire_cause { WireCause (W.faults wire.old) (W.faults wire.new) result }
    ensures write_cause { WriteCause (O.faults out.old) (O.faults out.new) result }
    ensures file_cause { FileCause (F.write_faults files.old) (F.write_faults files.new) result }
    ensures reads { F.faults files.new ≡ F.faults files.old }
    ensures numbers { F.given files.old ≤ F.given files.new }
{
    laws::texts_follow();
    let mut course = Course::new();
    let mut file = 0;
    for _ in 0..MOST_TURNS {
        if turn(
            alloc,
            end,
            events,
            &mut course,
            buffer,
            &mut file,
            files,
            wire,
            clock,
            out,
        )? {
            return Ok(());
        }
    }
    Err(NodeError::Turns)
}

/// Takes one reading of the clock, and does the next line if it is due, and else one receive. Answers whether it did `end`.
fn turn<E: End, F: Files, W: Wire, C: Clock, O: Sink>(
    alloc: Global,
    end: &mut E,
    events: &[Event],
    course: &mut Course,
    buffer: &mut [u8],
    file: &mut usize,
    files: &mut F,
    wire: &mut W,
    clock: &mut C,
    out: &mut O,
) -> Result<bool, NodeError>
    requires bound { W.bound wire.old ≡ true }
    requires lines { All IsInRange events.now }
    requires few { length events.now ≤ most_events }
    requires course { IsOn events.now course.old }
    requires room { length buffer.old ≡ receive_room }
    requires file { HasFile (F.told files.old) (F.given files.old) file.old (E.records end.old) }
    ensures bound { W.bound wire.new ≡ true }
    ensures room { length buffer.new ≡ length buffer.old }
    ensures course { OnOk result (IsOn events.now course.new) }
    ensures file { OnOk result (HasFile (F.told files.new) (F.given files.new) file.new (E.records end.new)) }
    ensures takes { TakesTurn E.rules (node_of end.old events.now course.old) (node_of end.new events.now course.new)
        (C.readings clock.old) (C.readings clock.new)
        (effects (O.written out.old) (W.told wire.old) (F.told files.old))
        (effects (O.written out.new) (W.told wire.new) (F.told files.new)) result }
    ensures flushed { NothingWaits (O.written out.old) → OnOk result (NothingWaits (O.written out.new)) }
    ensures wire_cause { WireCause (W.faults wire.old) (W.faults wire.new) result }
    ensures write_cause { WriteCause (O.faults out.old) (O.faults out.new) result }
    ensures file_cause { FileCause (F.write_faults files.old) (F.write_faults files.new) result }
    ensures reads { F.faults files.new ≡ F.faults files.old }
    ensures numbers { F.given files.old ≤ F.given files.new }
{
    let ms = course.since_start(clock.now());
    match course.next_due(events, ms) {
        Some(event) => do_line(alloc, end, course, event, file, files, wire, out),
        None => receive(end, buffer, *file, files, wire, out),
    }
}

/// Does a line. Answers whether it is `end`.
fn do_line<E: End, F: Files, W: Wire, O: Sink>(
    alloc: Global,
    end: &mut E,
    course: &mut Course,
    event: &Event,
    file: &mut usize,
    files: &mut F,
    wire: &mut W,
    out: &mut O,
) -> Result<bool, NodeError>
    requires bound { W.bound wire.old ≡ true }
    requires event { IsInRange event.now }
    requires few { (course.old.next < most_events) × (course.old.made < most_events) }
    requires file { HasFile (F.told files.old) (F.given files.old) file.old (E.records end.old) }
    ensures bound { W.bound wire.new ≡ true }
    ensures next { OnOk result (course.new.next ≡ course.old.next + 1) }
    ensures made { OnOk result (course.new.made ≤ course.old.made + 1) }
    ensures file { OnOk result (HasFile (F.told files.new) (F.given files.new) file.new (E.records end.new)) }
    ensures does { (events : List EventValue) (found : Option Parcel)
        → DoesTurn (line_turn E.rules (node_of end.old events course.old) event.now) found
        (node_of end.new events course.new)
        (effects (O.written out.old) (W.told wire.old) (F.told files.old))
        (effects (O.written out.new) (W.told wire.new) (F.told files.new)) result }
    ensures flushed { NothingWaits (O.written out.old) → OnOk result (NothingWaits (O.written out.new)) }
    ensures wire_cause { WireCause (W.faults wire.old) (W.faults wire.new) result }
    ensures write_cause { WriteCause (O.faults out.old) (O.faults out.new) result }
    ensures file_cause { FileCause (F.write_faults files.old) (F.write_faults files.new) result }
    ensures reads { F.faults files.new ≡ F.faults files.old }
    ensures numbers { F.given files.old ≤ F.given files.new }
{
    let made = end.line(alloc, event, course.made + 1, file, files, wire, out)?;
    course.go_on(event, made);
    Ok(is_end(event))
}

/// Receives once, and an arrival is taken. Answers that this isn't `end`.
fn receive<E: End, F: Files, W: Wire, O: Sink>(
    end: &mut E,
    buffer: &mut [u8],
    file: usize,
    files: &mut F,
    wire: &mut W,
    out: &mut O,
) -> Result<bool, NodeError>
    requires bound { W.bound wire.old ≡ true }
    requires room { length buffer.old ≡ receive_room }
    requires file { HasFile (F.told files.old) (F.given files.old) file (E.records end.old) }
    ensures bound { W.bound wire.new ≡ true }
    ensures room { length buffer.new ≡ length buffer.old }
    ensures file { OnOk result (HasFile (F.told files.new) (F.given files.new) file (E.records end.new)) }
    ensures does { (found : Option Parcel) × ((events : List EventValue) (course : CourseValue)
        → DoesTurn (receive_turn E.rules (node_of end.old events course) found) found (node_of end.new events course)
        (effects (O.written out.old) (W.told wire.old) (F.told files.old))
        (effects (O.written out.new) (W.told wire.new) (F.told files.new)) result) }
    ensures flushed { NothingWaits (O.written out.old) → OnOk result (NothingWaits (O.written out.new)) }
    ensures wire_cause { WireCause (W.faults wire.old) (W.faults wire.new) result }
    ensures write_cause { WriteCause (O.faults out.old) (O.faults out.new) result }
    ensures file_cause { FileCause (F.write_faults files.old) (F.write_faults files.new) result }
    ensures reads { F.faults files.new ≡ F.faults files.old }
    ensures numbers { F.given files.old ≤ F.given files.new }
{
    laws::texts_follow();
    let Ok(found) = wire.receive(buffer) else {
        return Err(NodeError::WireFault);
    };
    if let Some((from, count)) = found {
        end.arrive(from, &buffer[..count], file, files, out)?;
    }
    Ok(false)
}
