// Theorems about a whole service, from entry to RSM, and no code: specs/ has their statements, and proofs/ their proofs.
#![tactic(auto)]

ghost use Rattle.service.specs.NoMark.{LeavesNoMark};
ghost use Rattle.service.specs.Back.{WordsBack, RegistersBack, SegmentsBack, OnlyRestored};
ghost use Rattle.service.specs.Stored.{LeftThere, StoresAsListed, OnlyStored, KeptUnlessStored, KeptWhereQuiet, UnchangedUnlessStored};
ghost use Rattle.service.specs.Asked.{MatchingAsked, ServiceAsked, EveryEntry, MatchesOne, HeaderKeptAsked, NoMarkDetermines, NextRecorded, WordsByBytes, RegistersSettled, NoMarkAtOnce, CompletesAsked, UntouchedAsked, PutBackAsked, ByValueAsked, ByValue, SegmentsStay, AllSegments, AllBack};

// These hold the gate to the theorems, since a function is proved only with all that it ensures.
fn request_14()
    ensures { LeavesNoMark }
{}

// The same with less asked.
fn back()
    ensures words { WordsBack }
    ensures registers { RegistersBack }
    ensures segments { SegmentsBack }
    ensures restored { OnlyRestored }
{}

// What the steps and their answers say of the hypotheses about bytes.
fn stored_to()
    ensures left { LeftThere }
    ensures listed { StoresAsListed }
    ensures stored { OnlyStored }
    ensures kept { KeptUnlessStored }
    ensures quiet { KeptWhereQuiet }
    ensures unchanged { UnchangedUnlessStored }
{}

// What the hypotheses ask for, and what the claim settles.
fn matching()
    ensures asked { MatchingAsked }
    ensures service { ServiceAsked }
    ensures every { EveryEntry }
    ensures one { MatchesOne }
{}

fn saved_registers()
    ensures kept { HeaderKeptAsked }
    ensures mark { NoMarkDetermines }
    ensures next { NextRecorded }
    ensures words { WordsByBytes }
    ensures settled { RegistersSettled }
    ensures once { NoMarkAtOnce }
{}

fn segment_registers()
    ensures completes { CompletesAsked }
    ensures untouched { UntouchedAsked }
    ensures asked { PutBackAsked }
    ensures value { ByValueAsked }
    ensures steps { ByValue }
    ensures stay { SegmentsStay }
    ensures segments { AllSegments }
    ensures all { AllBack }
{}
