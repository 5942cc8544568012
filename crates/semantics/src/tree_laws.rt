// The laws of the class tree, each the contract of a function.
ghost use Rattle.semantics.specs.TreeLaws.{FittingIsAnOrder, JoinIsDeepest, AbsentFitsNothing, OldClassesStay, AddingKeepsTrees, AddingRefuses, WorkedClasses, WorkedTree};

pub fn fitting_is_an_order()
    ensures { FittingIsAnOrder }
{}

pub fn join_is_deepest()
    ensures { JoinIsDeepest }
{}

pub fn absent_fits_nothing()
    ensures { AbsentFitsNothing }
{}

pub fn old_classes_stay()
    ensures { OldClassesStay }
{}

pub fn adding_keeps_trees()
    ensures { AddingKeepsTrees }
{}

pub fn adding_refuses()
    ensures { AddingRefuses }
{}

pub fn worked_classes()
    ensures blank { WorkedClasses }
    ensures grown { WorkedTree }
{}
