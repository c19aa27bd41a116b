//! Prints why a call is refused, as reports have it: a word, and the number or the byte for which. Each kind of refusal has its
//! text, so one function prints the line of every refusal.

ghost use Rattle.std.specs.Prelude.{ℕ, List};
ghost use Rattle.q3_io.specs.Faults.{HasCause};
ghost use Rattle.q3_io.specs.Written.{Adds};
ghost use Rattle.q3_report.specs.ServerLines.{slot_error_text, no_client_text, say_error_text, not_later_text, config_refused_text};
ghost use Rattle.q3_report.specs.AnswerLines.{out_of_range_text, baseline_refused_text, type_refused_text, move_refused_text, record_refused_text, stop_refused_text};

use crate::answer::{
    BaselineRefused, MoveRefused, OutOfRange, RecordRefused, StopRefused, TypeRefused,
};
use crate::client::print_move_error;
use q3_io::{Failed, Piece, Sink, print_all};
use q3_map::NotLater;
use q3_server::{ConfigRefused, SlotError};
use q3_slot::{NoClient, SayError};

/// Why a call is refused.
pub(crate) trait Refusal {
    /// As reports have it.
    ghost told: { Self → List ℕ };

    /// Prints it. `Failed` comes where the sink failed, after a front of it.
    fn print<O: Sink>(&self, out: &mut O) -> Result<(), Failed>
        ensures adds { Adds (O.written out.old) (O.written out.new) (told self.now) result }
        ensures cause { HasCause (O.faults out.old) (O.faults out.new) result };
}

impl Refusal for SlotError {
    ghost told = { slot_error_text };

    fn print<O: Sink>(&self, out: &mut O) -> Result<(), Failed>
        ensures adds { Adds (O.written out.old) (O.written out.new) (slot_error_text self.now) result }
        ensures cause { HasCause (O.faults out.old) (O.faults out.new) result }
    {
        match self {
            SlotError::Range => out.write_all(b"range"),
            SlotError::Taken => out.write_all(b"taken"),
            SlotError::Twin(slot) => print_all(
                &[Piece::Text(b"twin "), Piece::Number(u64::from(*slot))],
                out,
            ),
        }
    }
}

impl Refusal for NoClient {
    ghost told = { no_client_text };

    fn print<O: Sink>(&self, out: &mut O) -> Result<(), Failed>
        ensures adds { Adds (O.written out.old) (O.written out.new) (no_client_text self.now) result }
        ensures cause { HasCause (O.faults out.old) (O.faults out.new) result }
    {
        out.write_all(b"noclient")
    }
}

impl Refusal for SayError {
    ghost told = { say_error_text };

    fn print<O: Sink>(&self, out: &mut O) -> Result<(), Failed>
        ensures adds { Adds (O.written out.old) (O.written out.new) (say_error_text self.now) result }
        ensures cause { HasCause (O.faults out.old) (O.faults out.new) result }
    {
        match self {
            SayError::NoClient => out.write_all(b"noclient"),
            SayError::Own => out.write_all(b"own"),
            SayError::NotPrimed => out.write_all(b"notprimed"),
            SayError::WindowFull => out.write_all(b"windowfull"),
        }
    }
}

impl Refusal for NotLater {
    ghost told = { not_later_text };

    fn print<O: Sink>(&self, out: &mut O) -> Result<(), Failed>
        ensures adds { Adds (O.written out.old) (O.written out.new) (not_later_text self.now) result }
        ensures cause { HasCause (O.faults out.old) (O.faults out.new) result }
    {
        print_all(
            &[
                Piece::Text(b"notlater "),
                Piece::Number(u64::from(self.last)),
            ],
            out,
        )
    }
}

impl Refusal for OutOfRange {
    ghost told = { out_of_range_text };

    fn print<O: Sink>(&self, out: &mut O) -> Result<(), Failed>
        ensures adds { Adds (O.written out.old) (O.written out.new) (out_of_range_text self.now) result }
        ensures cause { HasCause (O.faults out.old) (O.faults out.new) result }
    {
        out.write_all(b"range")
    }
}

impl Refusal for BaselineRefused {
    ghost told = { baseline_refused_text };

    fn print<O: Sink>(&self, out: &mut O) -> Result<(), Failed>
        ensures adds { Adds (O.written out.old) (O.written out.new) (baseline_refused_text self.now) result }
        ensures cause { HasCause (O.faults out.old) (O.faults out.new) result }
    {
        match self {
            BaselineRefused::OutOfRange => out.write_all(b"range"),
            BaselineRefused::Late => out.write_all(b"late"),
        }
    }
}

impl Refusal for ConfigRefused {
    ghost told = { config_refused_text };

    fn print<O: Sink>(&self, out: &mut O) -> Result<(), Failed>
        ensures adds { Adds (O.written out.old) (O.written out.new) (config_refused_text self.now) result }
        ensures cause { HasCause (O.faults out.old) (O.faults out.new) result }
    {
        match self {
            ConfigRefused::Index => out.write_all(b"index"),
            ConfigRefused::Own => out.write_all(b"own"),
            ConfigRefused::Chars(byte) => print_all(
                &[Piece::Text(b"chars "), Piece::Number(u64::from(*byte))],
                out,
            ),
            ConfigRefused::Long => out.write_all(b"long"),
            ConfigRefused::Full => out.write_all(b"full"),
            ConfigRefused::WindowFull(slot) => print_all(
                &[Piece::Text(b"windowfull "), Piece::Number(u64::from(*slot))],
                out,
            ),
        }
    }
}

impl Refusal for TypeRefused {
    ghost told = { type_refused_text };

    fn print<O: Sink>(&self, out: &mut O) -> Result<(), Failed>
        ensures adds { Adds (O.written out.old) (O.written out.new) (type_refused_text self.now) result }
        ensures cause { HasCause (O.faults out.old) (O.faults out.new) result }
    {
        match self {
            TypeRefused::NoClient => out.write_all(b"noclient"),
            TypeRefused::WindowFull => out.write_all(b"windowfull"),
        }
    }
}

impl Refusal for MoveRefused {
    ghost told = { move_refused_text };

    fn print<O: Sink>(&self, out: &mut O) -> Result<(), Failed>
        ensures adds { Adds (O.written out.old) (O.written out.new) (move_refused_text self.now) result }
        ensures cause { HasCause (O.faults out.old) (O.faults out.new) result }
    {
        match self {
            MoveRefused::NoClient => out.write_all(b"noclient"),
            MoveRefused::Error(error) => print_move_error(*error, out),
        }
    }
}

impl Refusal for RecordRefused {
    ghost told = { record_refused_text };

    fn print<O: Sink>(&self, out: &mut O) -> Result<(), Failed>
        ensures adds { Adds (O.written out.old) (O.written out.new) (record_refused_text self.now) result }
        ensures cause { HasCause (O.faults out.old) (O.faults out.new) result }
    {
        match self {
            RecordRefused::NoClient => out.write_all(b"noclient"),
            RecordRefused::NoGame => out.write_all(b"nogame"),
            RecordRefused::Already => out.write_all(b"already"),
        }
    }
}

impl Refusal for StopRefused {
    ghost told = { stop_refused_text };

    fn print<O: Sink>(&self, out: &mut O) -> Result<(), Failed>
        ensures adds { Adds (O.written out.old) (O.written out.new) (stop_refused_text self.now) result }
        ensures cause { HasCause (O.faults out.old) (O.faults out.new) result }
    {
        match self {
            StopRefused::NoClient => out.write_all(b"noclient"),
            StopRefused::NotRecording => out.write_all(b"notrecording"),
        }
    }
}
