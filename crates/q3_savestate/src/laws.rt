//! Laws of states and their bytes, each the contract of a call that does nothing but cite the laws below it.

ghost use Rattle.q3_savestate.specs.Laws.{WrittenIsRead, ReadIsWritten, SavedIsApplied};
ghost use Rattle.q3_savestate.specs.Laws.{WrittenStateIsRead, ReadStateIsWritten};

use q3_config::laws as config;
use q3_entity::laws as entity;
use q3_rings::laws as rings;

/// What is written of a state is read as that state.
pub fn written_is_read()
    ensures { WrittenIsRead }
{}

/// What is read is a state that is well formed and in range, and was written so.
pub fn read_is_written()
    ensures { ReadIsWritten }
{
    config::sizes_add_up();
    entity::none_are_baselines();
    entity::baseline_is_added();
    rings::snapshots_stay();
}

/// What is saved of a state is well formed and in range, and what is so saved is that of a state.
pub fn saved_is_applied()
    ensures { SavedIsApplied }
{}

/// What is written of a client's state is read as that state.
pub fn written_state_is_read()
    ensures { WrittenStateIsRead }
{
    saved_is_applied();
    written_is_read();
}

/// What is read was written so, and is a client's state.
pub fn read_state_is_written()
    ensures { ReadStateIsWritten }
{
    saved_is_applied();
    read_is_written();
}
