//! A law of profiles, the contract of a call that does nothing.

ghost use Rattle.q3_profile.specs.Laws.{CheckedNamesRule};

/// Where a file is no profile, it breaks a rule: its error is never want of memory, neither the profile's nor the code's.
pub fn checked_names_rule()
    ensures { CheckedNamesRule }
{}
