//! The laws of parameters, each as the contract of a function that does nothing.
ghost use Rattle.span_params.specs.Laws.{AddedIsFound, StayDistinct};

/// A parameter that was added is found by its name, and by each other name what was found before.
pub fn added_is_found()
    ensures { AddedIsFound }
{}

/// Adding a parameter leaves no two with one name, where no two were before. There are none at first.
pub fn stay_distinct()
    ensures { StayDistinct }
{}
