//! The lines of a script that are the game's, at a server, and the bytes that a server takes.

ghost use Rattle.std.specs.Prelude.{◌≡◌, ◌≤◌, option_map};
ghost use Rattle.q3_script.specs.Grammar.{IsInRange};
ghost use Rattle.q3_server.specs.Taking.{take_at};
ghost use Rattle.q3_report.specs.Tellings.{answered_of};
ghost use Rattle.q3_report.specs.declared.answer.HandedIn.TheVariants as answers;
ghost use Rattle.q3_ends.specs.AtServer.{baseline_line, entity_line, remove_line, stepped_server, taken_by_server};
ghost use Rattle.q3_ends.specs.AtServer as spec;

use q3_entity::EntityState;
use q3_io::Address;
use q3_map::Late;
use q3_report::{Answer, BaselineRefused, Front, HandedIn, OutOfRange, Taker};
use q3_script::Event;
use q3_server::{Heard, Server};

/// Hands in to a server what a line of the game says. `None` comes exactly where the line is another one, and nothing changes then.
#[tactic(auto, unfolding(crate::specs::AtServer::server_line))]
pub fn server_line(server: &mut Server, event: &Event) -> Option<HandedIn>
    requires { IsInRange event.now }
    ensures server { server.new ≡ stepped_server server.old (spec.server_line server.old event.now) }
    ensures answer { result ≡ option_map (λ step. step.answer) (spec.server_line server.old event.now) }
{
    match event {
        Event::Map { id, feed } => Some(HandedIn::Map {
            id: *id,
            outcome: server.new_map(*id, *feed),
        }),
        Event::Baseline { state } => {
            let state = state.state();
            Some(HandedIn::Baseline {
                number: state.number,
                outcome: set_baseline(server, &state),
            })
        }
        Event::Config { index, text } => Some(HandedIn::Config {
            index: *index,
            outcome: server.set_config(*index, text.bytes()),
        }),
        Event::Entity { state } => {
            let state = state.state();
            Some(HandedIn::Entity {
                number: state.number,
                outcome: set_entity(server, &state),
            })
        }
        Event::Remove { number } => Some(HandedIn::Remove {
            number: *number,
            outcome: remove_entity(server, *number),
        }),
        Event::Player { c, player } => Some(HandedIn::Player {
            c: *c,
            outcome: server.set_player(*c, &player.player()),
        }),
        Event::Area { c, area } => Some(HandedIn::Area {
            c: *c,
            outcome: server.set_area(*c, area),
        }),
        Event::Time { time } => {
            server.set_time(*time);
            Some(HandedIn::Time)
        }
        Event::Say { c, text } => Some(HandedIn::Say {
            c: *c,
            outcome: server.say(*c, &text.text()),
        }),
        _ => None,
    }
}

/// Takes over a baseline, whose number isn't 0, and has to be below the end mark.
fn set_baseline(server: &mut Server, state: &EntityState) -> Result<(), BaselineRefused>
    requires some { 1 ≤ state.now.number }
    ensures server { server.new ≡ (baseline_line server.old state.now).server }
    ensures answer { answers.Baseline state.now.number result ≡ (baseline_line server.old state.now).answer }
{
    if state.number >= server.end() {
        return Err(BaselineRefused::OutOfRange);
    }
    match server.set_baseline(state) {
        Ok(()) => Ok(()),
        Err(Late) => Err(BaselineRefused::Late),
    }
}

/// Takes over an entity, whose number has to be below the end mark.
fn set_entity(server: &mut Server, state: &EntityState) -> Result<(), OutOfRange>
    ensures server { server.new ≡ (entity_line server.old state.now).server }
    ensures answer { answers.Entity state.now.number result ≡ (entity_line server.old state.now).answer }
{
    if state.number >= server.end() {
        return Err(OutOfRange);
    }
    server.set_entity(state);
    Ok(())
}

/// Takes an entity away, whose number has to be below the end mark.
fn remove_entity(server: &mut Server, number: u16) -> Result<(), OutOfRange>
    ensures server { server.new ≡ (remove_line server.old number).server }
    ensures answer { answers.Remove number result ≡ (remove_line server.old number).answer }
{
    if number >= server.end() {
        return Err(OutOfRange);
    }
    server.remove_entity(number);
    Ok(())
}

/// A server takes bytes from an address. What it executed and ran is in the answer; `heard` may hold anything before.
pub fn server_takes<'a>(
    server: &mut Server,
    front: Front,
    from: Address,
    bytes: &[u8],
    heard: &'a mut Heard,
) -> Answer<'a>
    ensures server { server.new ≡ (take_at server.old from bytes.now).server }
    ensures answer { answered_of result ≡ taken_by_server front (take_at server.old from bytes.now) }
{
    let took = server.take(from, bytes, heard);
    Answer::Took {
        front,
        taker: Taker::Server { took, heard },
    }
}
