//! Reads a script.

ghost use Rattle.std.specs.Prelude.{◌≡◌, ◌+◌, ◌≤◌, List, length, All, IfOk};
ghost use Rattle.q3_script.specs.declared.event.Event.{Event as EventValue};
ghost use Rattle.q3_script.specs.Script.{longest_script, lines_of, is_passed_over, event_at, no_course, events_from, script_at, with_items, Reads};
ghost use Rattle.q3_script.specs.Script as spec;
ghost use Rattle.q3_script.specs.Grammar.{IsEventOf, SpellsScript};

use crate::cause::{ScriptError, ScriptKind};
use crate::course::Course;
use crate::event::Event;
use crate::line::read_line;
use q3_bits::NoMemory;
use q3_words::LineCause;
use q3_words::laws::word_laws;
use std::alloc::Global;

/// The longest script, in bytes.
pub const LONGEST_SCRIPT: usize = 67_108_864;

/// How many events a script may have.
const MOST_EVENTS: usize = 65_536;

/// Whether a line is empty or begins with `#`.
fn passed_over(line: &[u8]) -> bool
    ensures { result ≡ is_passed_over line.now }
{
    line.is_empty() || line[0] == b'#'
}

/// The event of a line that stands after so many others. `Err` is want of memory.
fn event_of(
    alloc: Global,
    kind: ScriptKind,
    line: &[u8],
    before: usize,
) -> Result<Result<Event, LineCause>, NoMemory>
    ensures { IfOk result (λ answer. answer ≡ event_at kind before line.now) }
{
    if before >= MOST_EVENTS {
        return Ok(Err(LineCause::Many));
    }
    read_line(alloc, kind, line)
}

/// The number after that of the last line, of so many pieces between newlines: a last piece that is empty is no line.
fn line_after(bytes: &[u8], pieces: u32) -> u32
    requires few { pieces ≤ longest_script + 1 }
    ensures { pieces ≡ length (lines_of bytes.now) → result ≡ spec.line_after bytes.now }
{
    if bytes.is_empty() || bytes.ends_with(b"\n") {
        pieces
    } else {
        pieces + 1
    }
}

/// The events of all lines, up to the first bad one.
fn events(alloc: Global, kind: ScriptKind, bytes: &[u8]) -> Result<Vec<Event>, ScriptError>
    requires { length bytes.now ≤ longest_script }
    ensures { Reads (with_items result) (events_from kind (spec.line_after bytes.now) 1 0 no_course
        (lines_of bytes.now)) }
{
    let mut events = Vec::new(alloc);
    let mut course = Course::new();
    let mut number = 0;
    for line in bytes.split(|byte| *byte == b'\n') {
        number += 1;
        if passed_over(line) {
            continue;
        }
        let event = match event_of(alloc, kind, line, events.len())? {
            Ok(event) => event,
            Err(cause) => return Err(ScriptError::Line {
                line: number,
                cause,
            }),
        };
        if let Err(cause) = course.go_on(kind, &event) {
            return Err(ScriptError::Line {
                line: number,
                cause,
            });
        }
        events.push(event)?;
    }
    if !course.is_complete(kind) {
        return Err(ScriptError::Line {
            line: line_after(bytes, number),
            cause: LineCause::Order,
        });
    }
    Ok(events)
}

/// The events of a script of a kind, or why it is refused.
#[tactic(auto, unfolding(crate::specs::Script::script_at))]
fn read(alloc: Global, kind: ScriptKind, bytes: &[u8]) -> Result<Vec<Event>, ScriptError>
    ensures { Reads (with_items result) (script_at kind bytes.now) }
{
    if bytes.len() > LONGEST_SCRIPT {
        return Err(ScriptError::Line {
            line: 0,
            cause: LineCause::Large,
        });
    }
    events(alloc, kind, bytes)
}

/// The events that a script of a kind spells. `Line` is its first bad line, with the first cause for which it is refused;
/// `NoMemory` is want of memory.
pub fn read_script(alloc: Global, kind: ScriptKind, bytes: &[u8]) -> Result<Vec<Event>, ScriptError>
    // What is read is a script of these events.
    ensures found { IfOk result (λ events. SpellsScript kind bytes.now events.items) }
    // What is a script of some events is read as them, unless memory runs out.
    ensures only { (events : List EventValue) → SpellsScript kind bytes.now events
        → Reads (with_items result) (Ok events) }
    // Each event is one that a script of the kind may have.
    ensures each { IfOk result (λ events. All (IsEventOf kind) events.items) }
    // Which line is the first bad one, and why.
    ensures exact { Reads (with_items result) (script_at kind bytes.now) }
{
    word_laws();
    read(alloc, kind, bytes)
}
