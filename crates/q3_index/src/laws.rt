//! Laws of indexes, each the contract of a call that does nothing but cite the laws below it.

ghost use Rattle.q3_index.specs.Laws.{IndexOpens, SeekingGoesOn, SeekingIsPlaying};

use q3_clstate::laws as states;
use q3_demo::laws as demos;
use q3_savestate::laws as saving;

/// The index of a demo opens with it.
pub fn index_opens()
    ensures { IndexOpens }
{
    states::apply_stays();
    states::within_stays();
}

/// And what is sought in it is what playing leaves.
pub fn seeking_is_playing()
    ensures { SeekingIsPlaying }
{
    demos::first_records_leave();
    saving::written_state_is_read();
    states::apply_stays();
    states::within_stays();
}

/// It begins after the last 256th record at or below so many, so only the records from there on are played.
pub fn seeking_goes_on()
    ensures { SeekingGoesOn }
{
    demos::first_records_leave();
    saving::written_state_is_read();
    states::apply_stays();
    states::within_stays();
}
