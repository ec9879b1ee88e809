// Theorems about the step and about lists of steps, and no code: specs/ has their statements, and proofs/ their proofs.
#![tactic(auto)]

ghost use Rattle.isolation.specs.Widths.{MachineFits};
ghost use Rattle.isolation.specs.Refusals.{RefusedAsCalledFor, RefusalChangesNothing};
ghost use Rattle.isolation.specs.Service.{EntersWhereDue, EntersAsStated, PassesAsStated, ResumesWhereDue, ResumesAsStated, ResumesAsEntered, PointersAsStated};
ghost use Rattle.isolation.specs.Isolation.{Isolated, SameAnswers};
ghost use Rattle.isolation.specs.Tightness.{StartAsked, NoResetAsked, UpToEntryAsked, LastIsLast, ThroughEntryAsked, WholeList, HeaderDetermines, EntryDetermines, ResumptionDetermines, ResumeDetermines, PassingDetermines, PointersDetermine, PointersRecorded, AgreementDetermines};
ghost use Rattle.isolation.specs.Editions.{EditionStays, LockHolds, NoService, SameWithoutNews, CommonAsked};
ghost use Rattle.isolation.specs.Examples.{IsolationExamples, BoundaryExamples, PassingExamples, SmintExamples, RefusalExamples, LaterExamples, AlikeExample};

use machine::Machine;

// These hold the gate to the theorems, since a function is proved only with all that it ensures.
fn demand_1()
    ensures refused { RefusedAsCalledFor }
    ensures unchanged { RefusalChangesNothing }
    ensures examples { RefusalExamples }
{}

fn demand_2()
    ensures due { EntersWhereDue }
    ensures enters { EntersAsStated }
    ensures passes { PassesAsStated }
    ensures back { ResumesWhereDue }
    ensures resumes { ResumesAsStated }
    ensures returns { ResumesAsEntered }
    ensures pointers { PointersAsStated }
    ensures boundaries { BoundaryExamples }
    ensures smint { SmintExamples }
    ensures passing { PassingExamples }
{}

fn demand_3()
    ensures isolated { Isolated }
    ensures answers { SameAnswers }
    ensures examples { IsolationExamples }
{}

fn editions()
    ensures stays { EditionStays }
    ensures lock { LockHolds }
    ensures service { NoService }
    ensures same { SameWithoutNews }
    ensures common { CommonAsked }
    ensures examples { LaterExamples }
    ensures alike { AlikeExample }
{}

// What the hypotheses ask for, and what the claims settle.
fn hypotheses()
    ensures start { StartAsked }
    ensures resets { NoResetAsked }
    ensures entry { UpToEntryAsked }
    ensures last { LastIsLast }
    ensures through { ThroughEntryAsked }
    ensures whole { WholeList }
{}

fn claims()
    ensures header { HeaderDetermines }
    ensures entry { EntryDetermines }
    ensures resumption { ResumptionDetermines }
    ensures resume { ResumeDetermines }
    ensures passing { PassingDetermines }
    ensures pointers { PointersDetermine }
    ensures recorded { PointersRecorded }
    ensures agreement { AgreementDetermines }
{}

// The widths that theorems ask of a machine: every value of the type has them.
fn widths(m: Machine)
    ensures { MachineFits m }
{}
