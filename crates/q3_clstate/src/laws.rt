//! Laws of what a client has of the messages that were applied, each the contract of a call that does nothing but cite the laws
//! below it.

ghost use Rattle.q3_clstate.specs.Laws.{ApplyStays, AppliedIsContext, WithinStays};

use q3_config::laws as config;
use q3_entity::laws as entity;
use q3_rings::laws as rings;
use q3_svmsg::laws as svmsg;

/// All that a state holds is well formed and in range: at first, and after any bytes as a message of any number.
pub fn apply_stays()
    ensures { ApplyStays }
{
    config::strings_stay();
    config::texts_stay();
    entity::none_are_baselines();
    svmsg::read_is_spelled();
    rings::snapshots_stay();
}

/// And so is what a message is read against: snapshots and baselines in normal form.
#[tactic(auto, using(crate::proofs::HeldStays::context_is))]
pub fn applied_is_context()
    ensures { AppliedIsContext }
{}

/// Messages of numbers below 2^31 keep a state within its limits.
pub fn within_stays()
    ensures { WithinStays }
{
    svmsg::read_is_spelled();
}
