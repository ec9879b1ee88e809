// Theorem only: what is promised of a step, of the machine's code. specs/OneStep states it.
#![tactic(auto)]

ghost use Rattle.memory.specs.Memory.{memories};
ghost use Rattle.machine.specs.Outcomes.{ends};
ghost use Rattle.step_laws.specs.OneStep.{RefusedBy, RefusalLeaves, BoundaryPasses, LockKeeps};

use machine::{Machine, Stepped};
use steps::Step;

// Not called: it makes one step of the machine's code, for what it ensures alone.
fn makes(m: Machine, main: &mut [u8], management: &mut [u8], s: Step) -> Stepped
    ensures number { RefusedBy m (memories main.old management.old) s
        (ends result (memories main.new management.new)) }
    ensures refusal { RefusalLeaves m (memories main.old management.old)
        (ends result (memories main.new management.new)) }
    ensures boundary { BoundaryPasses m (memories main.old management.old) s
        (ends result (memories main.new management.new)) }
    ensures lock { LockKeeps m s (ends result (memories main.new management.new)) }
{
    m.step(main, management, s)
}
