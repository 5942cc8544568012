// Worked cases, and a host that is true to the trial card, each the contract of a function.
ghost use Rattle.semantics.specs.TrialHost.{TrialCardIsReached, NumberHostIsTrue, TrueFromBlank};
ghost use Rattle.semantics.specs.Worked.{WorkedPremises};
ghost use Rattle.semantics.specs.WorkedRuns.{WorkedCases};

// Each case of the list holds, and the laws' premises hold of the trial card with Countdown.
pub fn worked_cases()
    ensures cases { WorkedCases }
    ensures premises { WorkedPremises }
{}

// The number host is true to the trial card at each moment of a list of calls that adds no native row.
pub fn number_host_is_true()
    ensures reached { TrialCardIsReached }
    ensures from_trial { NumberHostIsTrue }
    ensures from_blank { TrueFromBlank }
{}
