//! Laws of demos.

ghost use Rattle.q3_demo.specs.Laws.{APrefixPlaysAPrefix, AppliedMayBeNoted, FirstRecordsLeave, PlayingTellsRecords, RecordingGoesOn, RefusedForItsBytes};

use q3_clstate::laws as clstate;
use q3_rings::laws as rings;
use q3_svmsg::laws as svmsg;

/// A recording goes on message by message: what one more adds, and how far the recording is after it, is told by how far it was
/// before.
pub fn recording_goes_on()
    ensures { RecordingGoesOn }
{}

/// A message that was applied may be noted, however far the recording is: what stands before its section was read, and a snapshot
/// that was accepted is held.
pub fn applied_may_be_noted()
    ensures { AppliedMayBeNoted }
{
    svmsg::read_is_spelled();
    clstate::applied_is_context();
    rings::accepted_is_held();
}

/// A demo is refused for what it holds: `ReadFault`, `NoMemory` and `WriteFault` are never the answer of its bytes.
pub fn refused_for_its_bytes()
    ensures { RefusedForItsBytes }
{}

/// Of a front of a demo the first of the demo's records are played. Its play ends with no refusal, where the front ends
/// before a head or within one, or with `Truncated` at the place after its last record, where it ends after a head and within its
/// message. Else no record more is played of the whole demo, and both plays end alike.
pub fn a_prefix_plays_a_prefix()
    ensures { APrefixPlaysAPrefix }
{}

/// Playing tells each record that is played, one text for each, and after them, exactly where the demo ends, what all of them
/// left.
pub fn playing_tells_records()
    ensures { PlayingTellsRecords }
{}

/// The first records of a demo leave what the last of them left. Where fewer are played, it is refused as the play is, and with
/// `Truncated` at the place after the last record where the demo ends there.
pub fn first_records_leave()
    ensures { FirstRecordsLeave }
{}
