// Theorems about replays, and no code: specs/ has their statements, and proofs/ their proofs.
#![tactic(auto)]

ghost use Rattle.memory.specs.Memory.{memories};
ghost use Rattle.replays.specs.Replays.{SameLines, LinesExample};
ghost use Rattle.replays.specs.Texts.{ThroughEnteredAsked, AlikeWithin, SameTexts, GoesOn, SameAfter};
ghost use Rattle.replays.specs.Example.{FirmwareExample, FirmwareTexts};
ghost use Rattle.replays.specs.Written.{PlaysWritten, WrittenExamples};

use machine::Machine;
use settings::Edition;

// These hold the gate to the theorems, since a function is proved only with all that it ensures.
fn theorem()
    ensures same { SameLines }
    ensures example { LinesExample }
{}

// The same of the whole text, from a machine that is locked and from any.
fn demand_3()
    ensures through { ThroughEnteredAsked }
    ensures alike { AlikeWithin }
    ensures texts { SameTexts }
    ensures on { GoesOn }
    ensures after { SameAfter }
{}

fn demand_3_example(edition: Edition)
    ensures firmware { FirmwareExample edition }
    ensures texts { FirmwareTexts }
{}

fn groups(m: Machine, main: &[u8], management: &[u8])
    ensures written { PlaysWritten }
    ensures examples { WrittenExamples m (memories main.now management.now) }
{}
