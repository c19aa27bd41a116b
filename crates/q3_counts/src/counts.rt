//! What a replay counts: the lines of its report, by their kind.

ghost use Rattle.std.specs.Prelude.{◌≡◌};
ghost use Rattle.q3_report.specs.Tellings.{answered_of};
ghost use Rattle.q3_counts.specs.Counts.{no_counts, with_lines};
ghost use Rattle.q3_counts.specs.Counts as spec;

use q3_client::{ClientTook, Sent};
use q3_clstate::{Log, SnapOutcome};
use q3_report::{Answer, Taker};
use q3_server::{Emitted, Heard, ServerTook};

/// Lines of a report, by their kind. Each count stops at 2^64 - 1.
#[derive(Clone, Copy, Debug, PartialEq, Eq)]
pub struct Counts {
    /// The first lines, one of each event.
    pub events: u64,
    /// Lines of `serve` and `send` with a datagram's number.
    pub datagrams: u64,
    /// Lines of snapshots that a client accepted.
    pub accepted: u64,
    /// Lines of snapshots that a client skipped.
    pub skipped: u64,
    /// Lines of the server's commands, each executed by a client.
    pub server_commands: u64,
    /// Lines of the clients' commands, each executed by the server.
    pub client_commands: u64,
    /// Lines of moves that the server ran.
    pub moves: u64,
}

impl Counts {
    /// Before the first event.
    pub fn none() -> Counts
        ensures { result ≡ no_counts }
    {
        Counts {
            events: 0,
            datagrams: 0,
            accepted: 0,
            skipped: 0,
            server_commands: 0,
            client_commands: 0,
            moves: 0,
        }
    }

    /// An event, and these lines of a client that took a datagram.
    fn of_client(accepted: u64, skipped: u64, commands: usize) -> Counts
        ensures { result ≡ record no_counts {
          events = 1;
          accepted = accepted;
          skipped = skipped;
          server_commands = commands;
        } }
    {
        Counts {
            events: 1,
            datagrams: 0,
            accepted,
            skipped,
            server_commands: commands as u64,
            client_commands: 0,
            moves: 0,
        }
    }

    /// An event, and these lines of the server that took one.
    fn of_server(commands: usize, moves: usize) -> Counts
        ensures { result ≡ record no_counts { events = 1; client_commands = commands; moves = moves } }
    {
        Counts {
            events: 1,
            datagrams: 0,
            accepted: 0,
            skipped: 0,
            server_commands: 0,
            client_commands: commands as u64,
            moves: moves as u64,
        }
    }

    /// An event, and so many lines with a datagram's number.
    fn of_making(datagrams: u64) -> Counts
        ensures { result ≡ record no_counts { events = 1; datagrams = datagrams } }
    {
        Counts {
            events: 1,
            datagrams,
            accepted: 0,
            skipped: 0,
            server_commands: 0,
            client_commands: 0,
            moves: 0,
        }
    }

    /// With these lines.
    pub fn with(self, lines: Counts) -> Counts
        ensures { result ≡ with_lines self lines }
    {
        Counts {
            events: self.events.saturating_add(lines.events),
            datagrams: self.datagrams.saturating_add(lines.datagrams),
            accepted: self.accepted.saturating_add(lines.accepted),
            skipped: self.skipped.saturating_add(lines.skipped),
            server_commands: self.server_commands.saturating_add(lines.server_commands),
            client_commands: self.client_commands.saturating_add(lines.client_commands),
            moves: self.moves.saturating_add(lines.moves),
        }
    }
}

/// The lines of an answer.
pub fn lines_in(answer: &Answer) -> Counts
    ensures { result ≡ spec.lines_in (answered_of answer.now) }
{
    match answer {
        Answer::Serve { emitted, .. } => Counts::of_making(made_served(emitted)),
        Answer::Send { sent: Ok(sent), .. } => Counts::of_making(made_sent(sent)),
        Answer::Took {
            taker: Taker::Client { took, log, .. },
            ..
        } => lines_of_client(took, log),
        Answer::Took {
            taker: Taker::Server { took, heard },
            ..
        } => lines_of_server(took, heard),
        _ => Counts::of_making(0),
    }
}

fn made_served(emitted: &Emitted) -> u64
    ensures { result ≡ spec.made_served emitted.now }
{
    match emitted {
        Emitted::Fragment { .. } | Emitted::Game { .. } | Emitted::Snapshot { .. } => 1,
        _ => 0,
    }
}

fn made_sent(sent: &Sent) -> u64
    ensures { result ≡ spec.made_sent sent.now }
{
    match sent {
        Sent::Fragment { .. } | Sent::Message { .. } => 1,
        _ => 0,
    }
}

/// The lines of a client that took a datagram.
fn lines_of_client(took: &ClientTook, log: &Log) -> Counts
    ensures { result ≡ spec.lines_of_client took.now log.now.commands }
{
    match took {
        ClientTook::Applied(applied) => Counts::of_client(
            accepted_in(&applied.snap),
            skipped_in(&applied.snap),
            log.commands.len(),
        ),
        _ => Counts::of_making(0),
    }
}

fn accepted_in(snap: &SnapOutcome) -> u64
    ensures { result ≡ spec.accepted_in snap.now }
{
    match snap {
        SnapOutcome::Accepted { .. } => 1,
        _ => 0,
    }
}

fn skipped_in(snap: &SnapOutcome) -> u64
    ensures { result ≡ spec.skipped_in snap.now }
{
    match snap {
        SnapOutcome::Skipped { .. } => 1,
        _ => 0,
    }
}

/// The lines of the server that took a datagram.
fn lines_of_server(took: &ServerTook, heard: &Heard) -> Counts
    ensures { result ≡ spec.lines_of_server took.now heard.now }
{
    match took {
        ServerTook::Ran { .. } => Counts::of_server(heard.commands.len(), heard.moves.len()),
        _ => Counts::of_making(0),
    }
}
