//! Laws of the windows, each the contract of a call that does nothing.

ghost use Rattle.q3_window.specs.Flow.{FlowLaws};
ghost use Rattle.q3_window.specs.Laws.{NoneStands, IssuedIsAdded, AcknowledgedIsIssued, LastIsCount, KeptIsIssued, CarriedIsIssued, StaysOutgoing, NoneExecuted, CarriedAreExecuted, TakenAreExecuted, TakenWithoutGap, ExecutedRise};

/// A new window stands for no texts.
pub fn none_stands()
    ensures issued { NoneStands }
    ensures executed { NoneExecuted }
{}

/// What is issued is one more of all that were issued, and its number is their count.
pub fn issued_is_added()
    ensures { IssuedIsAdded }
{}

/// An acknowledgement changes nothing of what was issued.
pub fn acknowledged_is_issued()
    ensures { AcknowledgedIsIssued }
{}

/// The last number issued is the count of all that were issued.
pub fn last_is_count()
    ensures { LastIsCount }
{}

/// A text that is kept is that of its number among all.
pub fn kept_is_issued()
    ensures { KeptIsIssued }
{}

/// What a message carries is what was issued above the last acknowledged one.
pub fn carried_is_issued()
    ensures { CarriedIsIssued }
{}

/// What was carried above a number that isn't above the executed one is executed without a gap, each command once and in
/// order.
pub fn carried_are_executed()
    ensures { CarriedAreExecuted }
{}

/// Commands that are taken one by one are executed as all at once, and where none leaves a gap a server takes them so too.
pub fn taken_are_executed()
    ensures any { TakenAreExecuted }
    ensures without_gap { TakenWithoutGap }
{}

/// The numbers of what is executed rise.
pub fn executed_rise()
    ensures { ExecutedRise }
{}

/// What every window is stays so where a command is issued, where several are that fit together, and where one is
/// acknowledged.
#[tactic(auto, using(crate::proofs::Staying::stays_outgoing))]
pub fn stays_outgoing()
    ensures { StaysOutgoing }
{}

/// Of the commands of one end on their way to the other: what holds of both windows, of what was issued and executed, and of what
/// the messages of both ends say stays so, whatever is issued and whatever message is begun or taken. After a newer message
/// whose commands are executed, exactly those are executed that were issued when it was begun.
#[tactic(auto, using(crate::proofs::Flowing::commands_flow))]
pub fn commands_flow()
    ensures { FlowLaws }
{
    none_stands();
    acknowledged_is_issued();
    last_is_count();
    kept_is_issued();
    carried_is_issued();
    carried_are_executed();
}
