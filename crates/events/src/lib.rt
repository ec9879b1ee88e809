// What a player notes of each record, as one number: the log. Its packing is stated in specs/, and known here alone.
#![tactic(auto)]

ghost use Rattle.std.specs.Prelude.{◌≡◌};
ghost use Rattle.events.specs.Events.{event, noted, number_in, value_in, LogTakenApart};

use steps::{Answer, Step};

// The number for a step, whether the machine was inside before it, and its answer.
#[tactic(auto, unfolding(crate::specs::Events::noted))]
pub fn note(step: Step, inside: bool, answer: Answer) -> u64
    ensures { result ≡ noted (event step inside answer) }
{
    u64::from(answer.number())
        + 256 * u64::from(step.kind())
        + 65536 * u64::from(inside)
        + 4294967296 * u64::from(answer.value())
}

// The answer's number and its value.
pub fn number_in(event: u64) -> u8
    ensures { result ≡ number_in event }
{
    (event % 256) as u8
}

pub fn value_in(event: u64) -> u32
    ensures { result ≡ value_in event }
{
    (event / 4294967296) as u32
}

// No code of the model: it holds the gate to what the packing is for.
fn laws()
    ensures { LogTakenApart }
{}
