//! Laws, each the contract of a call that does nothing but cite the laws below it. Those of replays and of joining are of profiles
//! that are checked, as each is that was read from a file.

ghost use Rattle.q3_recordings.specs.Joins.{JoinIsNoted, JoinPlays};
ghost use Rattle.q3_recordings.specs.Plays.{RecordingPlays, WholeIsRecorded};
ghost use Rattle.q3_recordings.specs.Replays.{OwnReplayBeginsWhole, OwnReplayTells, OwnReplayPlays, ReplayIsNoted, ReplayPlays};

use q3_bits::laws as bits;
use q3_client::laws as client;
use q3_clstate::laws as clstate;
use q3_demo::laws as demos;
use q3_rings::laws as rings;
use q3_schedules::laws as schedules;
use q3_svmsg::laws as svmsg;

/// Which messages a recording has, of messages that a client applied one after the other: all from the first on of which a whole
/// snapshot was accepted; or, where a message that had to be composed was too long, the first of them.
pub fn whole_is_recorded()
    ensures { WholeIsRecorded }
{
    demos::applied_may_be_noted();
}

/// The messages that a client of a replay applied after a `record` line that was answered `ok`, up to its first `stop`, are ones that it
/// applied one after the other, whatever bytes arrive.
pub fn replay_is_noted()
    ensures { ReplayIsNoted }
{
    schedules::slots_are_kept();
    svmsg::read_is_spelled();
    clstate::apply_stays();
    clstate::applied_is_context();
    client::takes_messages();
}

/// And so are those that a new client's node applied after the turn that began the first recording into a name, up to its end, whatever
/// arrives.
pub fn join_is_noted()
    ensures { JoinIsNoted }
{
    svmsg::read_is_spelled();
    clstate::apply_stays();
    clstate::applied_is_context();
    client::takes_messages();
}

/// Playing a recording gives what its client had: after the gamestate each of the messages that it recorded, under its number, with the
/// snapshot that was accepted of it and the commands that were executed of it, and in the end the client's baselines, slot, checksum feed and
/// number of commands. The recording begins with config strings that tell the map's id. Where it doesn't begin within a long string, the
/// config strings in the end are the client's, too.
pub fn recording_plays()
    ensures { RecordingPlays }
{
    bits::message_holds_bits();
    rings::accepted_is_held();
    svmsg::written_is_read();
    svmsg::read_is_spelled();
    svmsg::spelled_is_read();
    clstate::apply_stays();
    clstate::applied_is_context();
}

/// So does the recording of a client of a replay, whatever bytes arrive.
pub fn replay_plays()
    ensures { ReplayPlays }
{
    schedules::slots_are_kept();
    recording_plays();
    svmsg::read_is_spelled();
    clstate::apply_stays();
    clstate::applied_is_context();
    client::takes_messages();
}

/// Where each end gets only what the other made, the recording begins with config strings that tell the map's id, however long the replay
/// is: once a client has a gamestate, its config strings tell it.
pub fn own_replay_tells()
    ensures { OwnReplayTells }
{
    schedules::slots_are_kept();
    schedules::strings_tell_id();
    svmsg::read_is_spelled();
    clstate::apply_stays();
    clstate::applied_is_context();
    client::takes_messages();
}

/// So of at most 65,536 events, as many as a script may have, nothing is asked of the config strings, nor of how long the recording is: each
/// message takes a line that makes it and one that hands it over, and these are too few for a recording that can't be played.
pub fn own_replay_plays()
    ensures { OwnReplayPlays }
{
    own_replay_tells();
    replay_is_noted();
    replay_plays();
    schedules::applied_was_served();
}

/// Where, moreover, the game says no text of a config change, it begins within no long string; so the config strings in the end are the
/// client's.
pub fn own_replay_begins_whole()
    ensures { OwnReplayBeginsWhole }
{
    schedules::slots_are_kept();
    schedules::nothing_pends();
    svmsg::read_is_spelled();
    clstate::apply_stays();
    clstate::applied_is_context();
    client::takes_messages();
}

/// And so does the recording of a client that joins over a wire, whatever arrives.
pub fn join_plays()
    ensures { JoinPlays }
{
    recording_plays();
    svmsg::read_is_spelled();
    clstate::apply_stays();
    clstate::applied_is_context();
    client::takes_messages();
}
