// The laws of lookup and check, each the contract of a function.
ghost use Rattle.semantics.specs.CheckLaws.{LookupIsNearest, CheckIsExact, CheckTellsTheFirst, GrowthKeepsPassing, RulesKeepAgreement};
ghost use Rattle.semantics.specs.Worked.{WorkedCheck, WorkedPremises};

// A lookup finds the row of a name on the class or on the nearest class above, or none where there is none.
pub fn lookup_is_nearest()
    ensures { LookupIsNearest }
{}

// The check finds no fault exactly when the label table passes.
pub fn check_is_exact()
    ensures { CheckIsExact }
{}

// The fault that the check tells is the first.
pub fn check_tells_the_first()
    ensures { CheckTellsTheFirst }
{}

// What passes on a card passes on every card grown from it.
pub fn growth_keeps_passing()
    ensures { GrowthKeepsPassing }
{}

// A row that the rules let in agrees with the rows that are there.
pub fn rules_keep_agreement()
    ensures { RulesKeepAgreement }
{}

// The method Countdown on the trial card: it passes, two other label tables are refused, and filling finds its own. The laws' premises hold of it.
pub fn worked_check()
    ensures answers { WorkedCheck }
    ensures premises { WorkedPremises }
{}
