// Theorems about service inside service, and no code: specs/ has their statements, and proofs/ their proofs.
#![tactic(auto)]

ghost use Rattle.levels.specs.Levels.{OriginRecorded, ReturnsThrough, Overwritten, NeverOut, BothStand, BothReturn, NothingNests};
ghost use Rattle.levels.specs.Asked.{StandsAsStored, ThroughSettles, MovedAsked};
ghost use Rattle.levels.specs.Nested.{NestedExample, LevelsExample};

// These hold the gate to the theorems, since a function is proved only with all that it ensures.
fn header()
    ensures origin { OriginRecorded }
    ensures through { ReturnsThrough }
    ensures none { NothingNests }
{}

fn one_place()
    ensures overwritten { Overwritten }
    ensures never { NeverOut }
    ensures example { NestedExample }
{}

fn two_places()
    ensures stand { BothStand }
    ensures back { BothReturn }
    ensures example { LevelsExample }
{}

// What the hypotheses ask for, and what the claims settle.
fn hypotheses()
    ensures stands { StandsAsStored }
    ensures through { ThroughSettles }
    ensures moved { MovedAsked }
{}
