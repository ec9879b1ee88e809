// The refusals 1 to 3, which are tested before a step is tried.
#![tactic(auto)]

ghost use Rattle.std.specs.Prelude.{◌≡◌};
ghost use Rattle.memory.specs.Memory.{memories};
ghost use Rattle.refusals.specs.Refusals.{wrong_sizes, malformed_on, program_while_halted, first_refusal};

use steps::{Answer, Step};

#[tactic(auto, unfolding(crate::specs::Refusals::wrong_sizes))]
fn have_wrong_sizes(main: &[u8], management: &[u8]) -> bool
    ensures { result ≡ wrong_sizes (memories main.now management.now) }
{
    1048576 < main.len() || management.len() != 65536
}

#[tactic(auto, unfolding(crate::specs::Refusals::malformed_on))]
fn is_malformed_on(halted: bool, s: Step) -> bool
    ensures { result ≡ malformed_on halted s }
{
    s.is_malformed() || (halted && s.interrupts())
}

#[tactic(auto, unfolding(crate::specs::Refusals::program_while_halted))]
fn is_program_while_halted(halted: bool, s: Step) -> bool
    ensures { result ≡ program_while_halted halted s }
{
    halted && s.is_program()
}

// The first refusal that is called for, or none; they are tested in the order of their numbers.
#[tactic(auto, unfolding(crate::specs::Refusals::first_refusal))]
pub fn first_refusal(halted: bool, main: &[u8], management: &[u8], s: Step) -> Option<Answer>
    ensures { result ≡ first_refusal halted (memories main.now management.now) s }
{
    if have_wrong_sizes(main, management) {
        Some(Answer::WrongSize)
    } else if is_malformed_on(halted, s) {
        Some(Answer::Malformed)
    } else if is_program_while_halted(halted, s) {
        Some(Answer::WhileHalted)
    } else {
        None
    }
}
