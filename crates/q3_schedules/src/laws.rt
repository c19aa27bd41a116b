//! Laws of every schedule, each the contract of a call that does nothing but cite the laws below it.

ghost use Rattle.q3_schedules.specs.Early.{NodeLeavesFront, ReplayLeavesFront};
ghost use Rattle.q3_schedules.specs.NodeRecorded.{NodeRecordsItsMessages};
ghost use Rattle.q3_schedules.specs.Recorded.{RecordingIsItsMessages};
ghost use Rattle.q3_schedules.specs.ReportLines.{CountsAreLines, ReplayIsCounted};
ghost use Rattle.q3_schedules.specs.Schedules.{AlwaysLegible, UnknownWasNotMade, CommandsArePrefixes, KeysAgree, ExecutedGoesOn, AcceptedWereBuilt, ShownWasBuilt, ShownIsNewest, AsksForAccepted, AskedUnderGame, OneGamePerMap, BasesWereAccepted, HeldIsAccepted, ViewsWereBuilt, AppliedWasBuilt, AppliedWasServed, NewerIsAccepted, UsualNeverSkips, NewerIsRun, MovesWereIssued, EnteringIsNotRun, InOrderIsAccepted, ServedIsShown, StateIsOfGame, StringsTellId, StringsFollow, NothingPends};
ghost use Rattle.q3_schedules.specs.Slots.{SlotsAreKept};

use q3_bits::laws as bits;
use q3_chan::laws as chan;
use q3_world::laws as world;

/// In a replay no end ever gets what it can't read, no acknowledgement is refused, no command leaves a gap, the server finds each
/// datagram's client, no client is dropped, no snapshot is stale, and none is skipped but for the entities of its base.
pub fn always_legible()
    ensures { AlwaysLegible }
{
    world::step_follows();
    world::layers();
}

/// In a replay a delivery is unknown where no datagram of its number was made, and there alone.
pub fn unknown_was_not_made()
    ensures { UnknownWasNotMade }
{
    world::bytes_follow_tags();
    world::layers();
}

/// Each end has executed a front of the commands that the other issued, each once and in order.
pub fn commands_are_prefixes()
    ensures { CommandsArePrefixes }
{
    world::bytes_follow_tags();
}

/// The text by which an end that takes a newer message clears it by protocol 68 is the one by which the other end scrambled it.
pub fn keys_agree()
    ensures { KeysAgree }
{
    world::bytes_follow_tags();
    world::layers();
}

/// What a delivery prints as executed goes on where its end stood, by numbers and texts.
pub fn executed_goes_on()
    ensures { ExecutedGoesOn }
{
    world::bytes_follow_tags();
    world::layers();
}

/// Each snapshot that a client accepted is the one that the server built for it under that number, and the numbers rise.
pub fn accepted_were_built()
    ensures { AcceptedWereBuilt }
{
    world::bytes_follow_tags();
}

/// Whatever came before, the snapshot that a client shows is the one that the server built for it under that number.
pub fn shown_was_built()
    ensures { ShownWasBuilt }
{
    world::bytes_follow_tags();
    world::layers();
}

/// What a show prints is the newest snapshot that the client accepted since the last gamestate that it applied, if it accepted one.
pub fn shown_is_newest()
    ensures { ShownIsNewest }
{
    world::bytes_follow_tags();
}

/// A client's next message may ask for a delta exactly where the snapshot of the newest message that it took was accepted, no gamestate
/// was applied since, and no recording of it waits for a whole snapshot.
pub fn asks_for_accepted()
    ensures { AsksForAccepted }
{
    world::bytes_follow_tags();
}

/// What a client's message asks for, what its slot writes against, and each base of a message were accepted by the client under the
/// gamestate of that message's map.
pub fn asked_under_game()
    ensures { AskedUnderGame }
{
    world::bytes_follow_tags();
}

/// Of a map a client applied at most one gamestate, and the ids of those maps rise.
pub fn one_game_per_map()
    ensures { OneGamePerMap }
{
    world::bytes_follow_tags();
}

/// Each base against which a message was built is below it, at most by 28, was built itself, and was accepted by its client.
pub fn bases_were_accepted()
    ensures { BasesWereAccepted }
{
    world::bytes_follow_tags();
}

/// What a client holds is told by all that it accepted since the last gamestate that it applied: under a number exactly the
/// snapshot accepted under it, as long as no later one stands in its place and its entities are there.
pub fn held_is_accepted()
    ensures { HeldIsAccepted }
{
    world::bytes_follow_tags();
    world::layers();
}

/// A client lends under a number the snapshot that the server built for it under that number, or none.
pub fn views_were_built()
    ensures { ViewsWereBuilt }
{
    world::bytes_follow_tags();
    world::layers();
}

/// Whatever came before, where a client applies a datagram, its answer is told by the message that was built under its number
/// and by what it accepted; where it accepts the snapshot, its newest is the one that the server built for it; and after the
/// delivery the client has that number.
pub fn applied_was_built()
    ensures { AppliedWasBuilt }
{
    world::bytes_follow_tags();
    world::layers();
}

/// Whatever came before, where a client applies a datagram, its message's number is at most that of the lines before that let the server
/// make one.
pub fn applied_was_served()
    ensures { AppliedWasServed }
{
    world::bytes_follow_tags();
    applied_was_built();
}

/// Whatever came before, where the bytes of a datagram bring a message whole, it is applied: its gamestate, or its snapshot,
/// unless that has a base whose entities are gone.
pub fn newer_is_accepted()
    ensures { NewerIsAccepted }
{
    world::bytes_follow_tags();
    world::layers();
}

/// With a ring that has the usual room, or more, no snapshot is skipped.
pub fn usual_never_skips()
    ensures { UsualNeverSkips }
{
    world::bytes_follow_tags();
    world::layers();
    applied_was_built();
}

/// Whatever came before, where the bytes of a client's datagram bring a message whole to its slot, it is run if it is of the map,
/// and the slot goes on as its moves say; of a message of another map nothing is run.
pub fn newer_is_run()
    ensures { NewerIsRun }
{
    world::bytes_follow_tags();
    world::layers();
}

/// Whatever came before, the moves of a client that the server ran stand among those that the client issued, each once and in
/// their order, and their times rise.
pub fn moves_were_issued()
    ensures { MovesWereIssued }
{
    world::bytes_follow_tags();
}

/// A move with which a client enters a map isn't run: all moves of it that were run before are earlier, and all that are run later
/// are later.
pub fn entering_is_not_run()
    ensures { EnteringIsNotRun }
{
    world::bytes_follow_tags();
    world::layers();
}

/// Whatever came before, where all pieces of a message arrive in order, with nothing between them, whose number is above
/// every number that its client has taken, with the last it is applied: its gamestate, or its snapshot, unless that has a base
/// whose entities are gone.
pub fn in_order_is_accepted()
    ensures { InOrderIsAccepted }
{
    world::bytes_follow_tags();
    world::layers();
    chan::pieces_are_tagged();
}

/// Whatever came before, where a message may be begun for a client, all of its datagrams are made and arrive in order, and the
/// entities of its base are there, the client then shows the snapshot that the server had for it.
pub fn served_is_shown()
    ensures { ServedIsShown }
{
    world::bytes_follow_tags();
    in_order_is_accepted();
    applied_was_built();
    bits::message_holds_bits();
    chan::ends_scramble();
    chan::tagged_does();
}

/// A client's strings, baselines, id, slot and feed are those of the last gamestate that it applied, with the changes that it
/// executed since.
pub fn state_is_of_game()
    ensures { StateIsOfGame }
{
    world::bytes_follow_tags();
    world::layers();
}

/// Once a client has a gamestate, its config strings tell the id of its map: no command changes the string that does.
pub fn strings_tell_id()
    ensures { StringsTellId }
{
    world::bytes_follow_tags();
    world::layers();
}

/// Where the game says no text of a config change, a client has the server's config strings as they were when the last message that
/// it applied was begun, if that was under its own map.
pub fn strings_follow()
    ensures { StringsFollow }
{
    world::bytes_follow_tags();
    world::layers();
}

/// Where the game says no text of a config change, a client that has a gamestate is putting no long string together: what it executes of a
/// message are all pieces of a change or none.
pub fn nothing_pends()
    ensures { NothingPends }
{
    world::bytes_follow_tags();
    world::layers();
}

/// What is counted over answers are the lines of their text, by their kinds, and so are the counts of a replay those of its
/// report. The text alone tells a line's kind.
pub fn counts_are_lines()
    ensures answers { CountsAreLines }
    ensures replay { ReplayIsCounted }
{}

/// A file that exactly one `record` line of a replay names, which was answered `ok`, holds in the end the recording of the
/// messages that its client applied after that line, up to its first `stop`: whatever bytes arrived, and whatever files there
/// were.
pub fn recording_is_its_messages()
    ensures { RecordingIsItsMessages }
{}

/// What a client's node leaves in the file of a name that at most one of its `record` lines has is the recording of the messages
/// that the client applied after that line; where it has no end yet, a front of it.
pub fn node_records_its_messages()
    ensures { NodeRecordsItsMessages }
{}

/// Where a replay ends early, the file that at most one of its `record` lines names holds what it did before, or a front of what it would
/// hold.
pub fn replay_leaves_front()
    ensures { ReplayLeavesFront }
{}

/// And so it is where a client's node ends early.
pub fn node_leaves_front()
    ensures { NodeLeavesFront }
{}

/// In a replay nobody is anywhere in the beginning, a client joins only where none was, and each keeps its slot and its place, with its
/// challenge and its qport, whatever bytes arrive.
pub fn slots_are_kept()
    ensures { SlotsAreKept }
{}
