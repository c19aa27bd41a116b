//! A server at its end of a wire.

ghost use Rattle.std.specs.Prelude.{◌≡◌, None, IfOk};
ghost use Rattle.q3_profile.specs.Profile.{IsProfile};
ghost use Rattle.q3_server.specs.Server.{places, new_server};
ghost use Rattle.q3_node.specs.Running.{effects, DoesLine, WireCause, WriteCause, FileCause};
ghost use Rattle.q3_node.specs.AtServer.{server_rules, game_done};
ghost use Rattle.q3_node.specs.AtServer as spec;

use crate::end::{End, hand_over, tell, tell_line};
use crate::error::NodeError;
use q3_bits::NoMemory;
use q3_chan::Datagram;
use q3_ends::server::{server_line, server_takes};
use q3_io::{Address, Files, Sink, Wire};
use q3_profile::Profile;
use q3_report::{Answer, Front, HandedIn};
use q3_script::Event;
use q3_server::{Heard, MOST_SLOTS, Server};
use std::alloc::Global;
use std::marker::Model;

/// A server at its end of a wire.
#[derive(Drop)]
pub(crate) struct ServerEnd {
    server: Server,
    /// What it executed and ran last.
    heard: Box<Heard>,
}

impl Model for ServerEnd {
    ghost use Rattle.q3_server.specs.Server.{ServerState};

    ghost Value = { ServerState };

    ghost view = { λ e. e.server };
}

impl ServerEnd {
    ghost use Rattle.std.specs.Prelude.{ℕ, true, Option, OnOk};
    ghost use Rattle.q3_io.specs.Told.{Told};
    ghost use Rattle.q3_io.specs.Traffic.{Traffic};
    ghost use Rattle.q3_io.specs.Written.{NothingWaits};
    ghost use Rattle.q3_script.specs.Grammar.{IsInRange};
    ghost use Rattle.q3_ends.specs.AtServer as at_server_spec;

    /// A server by this profile, with no client. `Err` is want of memory.
    pub(crate) fn new(alloc: Global, profile: &Profile) -> Result<ServerEnd, NoMemory>
        requires { IsProfile profile.now }
        ensures { IfOk result (λ made. made ≡ new_server profile.now places) }
    {
        let server = Server::new(alloc, profile, MOST_SLOTS)?;
        let heard = Heard::new(alloc)?;
        let heard = Box::new(alloc, heard)?;
        Ok(ServerEnd { server, heard })
    }

    /// Makes a datagram for a client, and sends it to the client's address.
    fn serve<W: Wire, O: Sink>(
        &mut self,
        c: u8,
        number: u32,
        wire: &mut W,
        out: &mut O,
    ) -> Result<bool, NodeError>
        requires bound { W.bound wire.old ≡ true }
        ensures bound { W.bound wire.new ≡ true }
        ensures does { (told : Option Told) → DoesLine (spec.serve self.old c number) self.new
            (effects (O.written out.old) (W.told wire.old) told)
            (effects (O.written out.new) (W.told wire.new) told) result }
        ensures flushed { OnOk result (NothingWaits (O.written out.new)) }
        ensures wire_cause { WireCause (W.faults wire.old) (W.faults wire.new) result }
        ensures write_cause { WriteCause (O.faults out.old) (O.faults out.new) result }
        ensures file_cause { (faults : ℕ) → FileCause faults faults result }
    {
        let to = self.server.address(c);
        let mut made = Datagram::new();
        let emitted = self.server.emit(c, &mut made);
        let answer = Answer::Serve {
            c,
            emitted,
            datagram: number,
        };
        hand_over(to, &made, &answer, wire, out)
    }

    /// Does a line of the game, if it is one, and tells its answer.
    fn game_line<O: Sink>(&mut self, event: &Event, out: &mut O) -> Result<bool, NodeError>
        requires event { IsInRange event.now }
        ensures does { (wire : Option Traffic) (told : Option Told)
            → DoesLine (game_done self.old (at_server_spec.server_line self.old event.now)) self.new
            (effects (O.written out.old) wire told) (effects (O.written out.new) wire told) result }
        ensures flushed { NothingWaits (O.written out.old) → OnOk result (NothingWaits (O.written out.new)) }
        ensures wire_cause { (faults : ℕ) → WireCause faults faults result }
        ensures write_cause { WriteCause (O.faults out.old) (O.faults out.new) result }
        ensures file_cause { (faults : ℕ) → FileCause faults faults result }
    {
        let Some(handed) = server_line(&mut self.server, event) else {
            return Ok(false);
        };
        tell_line(&Answer::HandedIn(handed), out)
    }
}

impl End for ServerEnd {
    ghost rules = { server_rules };

    ghost records = { λ end. None };

    fn line<F: Files, W: Wire, O: Sink>(
        &mut self,
        _alloc: Global,
        event: &Event,
        number: u32,
        _file: &mut usize,
        _files: &mut F,
        wire: &mut W,
        out: &mut O,
    ) -> Result<bool, NodeError> {
        match event {
            Event::Client {
                c,
                challenge,
                qport,
                address,
                ..
            } => {
                let outcome = self.server.add_client(*c, *challenge, *qport, *address);
                tell_line(&Answer::HandedIn(HandedIn::Client { c: *c, outcome }), out)
            }
            Event::Serve { c } => self.serve(*c, number, wire, out),
            _ => self.game_line(event, out),
        }
    }

    fn arrive<F: Files, O: Sink>(
        &mut self,
        from: Address,
        bytes: &[u8],
        _file: usize,
        _files: &mut F,
        out: &mut O,
    ) -> Result<(), NodeError> {
        let answer = server_takes(
            &mut self.server,
            Front::Arrive,
            from,
            bytes,
            &mut self.heard,
        );
        tell(&answer, out)
    }
}
