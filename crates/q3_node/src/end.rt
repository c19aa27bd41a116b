//! What a node asks of its end.

ghost use Rattle.std.specs.Prelude.{◌≡◌, ◌≤◌, ℕ, true, [], Option, None, Some, OnOk, IfErr, IsErrOf};
ghost use Rattle.q3_io.specs.Told.{Told};
ghost use Rattle.q3_io.specs.Traffic.{Traffic};
ghost use Rattle.q3_io.specs.Written.{NothingWaits};
ghost use Rattle.q3_script.specs.Grammar.{IsInRange};
ghost use Rattle.q3_chan.specs.Sending.{Piece, HandsOut};
ghost use Rattle.q3_report.specs.Tellings.{answered_of};
ghost use Rattle.q3_ends.specs.Recording.{RecordingState, HasFile};
ghost use Rattle.q3_node.specs.Node.{Rules, parcel_to};
ghost use Rattle.q3_node.specs.Running.{effects, SendsParcel, PrintsAnswer, Tells, DoesActs, DoesLine, DoesArrival, WireCause, WriteCause, FileCause};

use crate::error::NodeError;
use q3_chan::Datagram;
use q3_io::{Address, Failed, Files, Sink, Wire};
use q3_report::{Answer, print_answer};
use q3_script::Event;
use std::alloc::Global;

/// An end of a connection.
pub(crate) trait End {
    /// What it does.
    ghost rules: { Rules Self };

    /// Its recording, if one goes on.
    ghost records: { Self → Option RecordingState };

    /// Does a line of its script, and tells its answer. A datagram that it makes has this number, and is sent before it is told. `file` is
    /// the number of its recording's file, if one goes on. Answers whether it made a datagram.
    fn line<F: Files, W: Wire, O: Sink>(
        &mut self,
        alloc: Global,
        event: &Event,
        number: u32,
        file: &mut usize,
        files: &mut F,
        wire: &mut W,
        out: &mut O,
    ) -> Result<bool, NodeError>
        requires event { IsInRange event.now }
        requires bound { W.bound wire.old ≡ true }
        requires file { HasFile (F.told files.old) (F.given files.old) file.old (records self.old) }
        ensures bound { W.bound wire.new ≡ true }
        ensures does { DoesLine (rules.line self.old event.now number) self.new
            (effects (O.written out.old) (W.told wire.old) (F.told files.old))
            (effects (O.written out.new) (W.told wire.new) (F.told files.new)) result }
        ensures file { OnOk result (HasFile (F.told files.new) (F.given files.new) file.new (records self.new)) }
        ensures flushed { NothingWaits (O.written out.old) → OnOk result (NothingWaits (O.written out.new)) }
        ensures wire_cause { WireCause (W.faults wire.old) (W.faults wire.new) result }
        ensures write_cause { WriteCause (O.faults out.old) (O.faults out.new) result }
        ensures file_cause { FileCause (F.write_faults files.old) (F.write_faults files.new) result }
        ensures reads { F.faults files.new ≡ F.faults files.old }
        ensures numbers { F.given files.old ≤ F.given files.new };

    /// Takes an arrival, and tells what it made of it.
    fn arrive<F: Files, O: Sink>(
        &mut self,
        from: Address,
        bytes: &[u8],
        file: usize,
        files: &mut F,
        out: &mut O,
    ) -> Result<(), NodeError>
        requires file { HasFile (F.told files.old) (F.given files.old) file (records self.old) }
        ensures does { DoesArrival (rules.arrives self.old (record { address = from; bytes = bytes.now })) self.new
            (O.written out.old) (O.written out.new) (F.told files.old) (F.told files.new) result }
        ensures file { OnOk result (HasFile (F.told files.new) (F.given files.new) file (records self.new)) }
        ensures flushed { OnOk result (NothingWaits (O.written out.new)) }
        ensures write_cause { WriteCause (O.faults out.old) (O.faults out.new) result }
        ensures file_cause { FileCause (F.write_faults files.old) (F.write_faults files.new) result }
        ensures reads { F.faults files.new ≡ F.faults files.old }
        ensures numbers { F.given files.old ≤ F.given files.new };
}

/// Prints the lines of an answer, and hands them on.
pub(crate) fn tell<O: Sink>(answer: &Answer, out: &mut O) -> Result<(), NodeError>
    ensures only { IfErr result (λ e. e ≡ NodeError.WriteFault) }
    ensures adds { PrintsAnswer (Some (answered_of answer.now)) (O.written out.old) (O.written out.new) result }
    ensures files { (told : Option Told) → DoesActs told told [] result }
    ensures flushed { OnOk result (NothingWaits (O.written out.new)) }
    ensures cause { WriteCause (O.faults out.old) (O.faults out.new) result }
{
    match print_answer(answer, out) {
        Ok(()) => Ok(()),
        Err(Failed) => Err(NodeError::WriteFault),
    }
}

/// Tells the answer of a line that makes no datagram, and answers that.
pub(crate) fn tell_line<O: Sink>(answer: &Answer, out: &mut O) -> Result<bool, NodeError>
    ensures told { (traffic : Option Traffic) → Tells (Some (answered_of answer.now)) None (O.written out.old)
        (O.written out.new) traffic traffic result }
    ensures files { (told : Option Told) → DoesActs told told [] result }
    ensures only { IfErr result (λ e. e ≡ NodeError.WriteFault) }
    ensures flushed { OnOk result (NothingWaits (O.written out.new)) }
    ensures wire_cause { (faults : ℕ) → WireCause faults faults result }
    ensures write_cause { WriteCause (O.faults out.old) (O.faults out.new) result }
    ensures file_cause { (faults : ℕ) → FileCause faults faults result }
{
    tell(answer, out)?;
    Ok(false)
}

/// Sends what was handed out, if anything was, to an address, if there is one, and then tells the answer. Answers whether it sent any.
pub(crate) fn hand_over<W: Wire, O: Sink>(
    to: Option<Address>,
    made: &Datagram,
    answer: &Answer,
    wire: &mut W,
    out: &mut O,
) -> Result<bool, NodeError>
    requires bound { W.bound wire.old ≡ true }
    ensures bound { W.bound wire.new ≡ true }
    ensures told { (piece : Option Piece) → HandsOut piece made.now.items
        → Tells (Some (answered_of answer.now)) (parcel_to to piece) (O.written out.old) (O.written out.new)
        (W.told wire.old) (W.told wire.new) result }
    ensures files { (told : Option Told) → DoesActs told told [] result }
    ensures memory { IsErrOf result NodeError.NoMemory → ⊥ }
    ensures flushed { OnOk result (NothingWaits (O.written out.new)) }
    ensures wire_cause { WireCause (W.faults wire.old) (W.faults wire.new) result }
    ensures write_cause { WriteCause (O.faults out.old) (O.faults out.new) result }
    ensures file_cause { (faults : ℕ) → FileCause faults faults result }
{
    let sent = send(to, made, wire)?;
    tell(answer, out)?;
    Ok(sent)
}

/// Sends what was handed out, if anything was, to an address, if there is one. Answers whether it sent any.
fn send<W: Wire>(to: Option<Address>, made: &Datagram, wire: &mut W) -> Result<bool, NodeError>
    requires bound { W.bound wire.old ≡ true }
    ensures bound { W.bound wire.new ≡ true }
    ensures only { IfErr result (λ e. e ≡ NodeError.WireFault) }
    ensures sends { (piece : Option Piece) → HandsOut piece made.now.items
        → SendsParcel (parcel_to to piece) (W.told wire.old) (W.told wire.new) result }
    ensures cause { WireCause (W.faults wire.old) (W.faults wire.new) result }
{
    let Some(to) = to else {
        return Ok(false);
    };
    if made.is_empty() {
        return Ok(false);
    }
    match wire.send(to, made) {
        Ok(()) => Ok(true),
        Err(Failed) => Err(NodeError::WireFault),
    }
}
