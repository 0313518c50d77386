//! Laws of settling, over all instances and all instants.

ghost use Rattle.egd_chase.specs.Settling.{RunsKeepMaps, RunsLeadOn, ClashesEndMaps, SettledRowsHold};
ghost use Rattle.egd_chase.specs.Measure.{StepsLowerTheMeasure};
ghost use Rattle.egd_chase.specs.Accepted.{ProjectedTracesAreAccepted};

/// What an allowed run of a journal does at each instant. Each map of the snapshot at its beginning into an instance in which
/// every egd holds maps the one at its end there too, and the one at its beginning maps into the one at its end. So at each
/// instant of an allowed clash the snapshot at the beginning maps into no such instance.
pub fn settling_keeps_maps_into_models()
    ensures keeps { RunsKeepMaps }
    ensures leads { RunsLeadOn }
    ensures clashes { ClashesEndMaps }
{}

/// Where no match over a common time has unequal sides, every egd holds at every instant.
pub fn every_egd_holds_in_settled_rows()
    ensures { SettledRowsHold }
{}

/// Each allowed step takes an unknown from an instant at which a row held it, and adds none: so settling ends.
pub fn each_step_lowers_the_measure()
    ensures { StepsLowerTheMeasure }
{}

/// Where a run fails, each trace that its firings and its journal are projected to at an instant of the clash is accepted on
/// the source, told by texts: so what a failed run prints is a certificate that any checker of traces takes.
pub fn projected_traces_are_accepted()
    ensures { ProjectedTracesAreAccepted }
{}
