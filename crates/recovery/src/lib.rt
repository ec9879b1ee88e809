// Laws only: what a restart finds after a raise, whole or cut by the loss of power (02, request 4). specs/Cuts states it.
#![tactic(auto)]

ghost use Rattle.std.specs.Prelude.{◌≡◌, true, Ok};
ghost use Rattle.slots.specs.Area.{ceiling, well_formed};
ghost use Rattle.journal.specs.Stores.{store_count};
ghost use Rattle.journal.specs.Answers.{counter};
ghost use Rattle.recovery.specs.Cuts.{found_after};

use journal::{Counter, Refused};

// Not called: they hold the check to what a restart finds after a raise, whole or cut, on every well-formed area. Each answers what the raise
// did, and the restart after it. There are two of them, and no generic one, since each is the law of one call.
fn restart_after_part(
    area: &mut [u8],
    value: u64,
    n: u8,
) -> (Result<(), Refused>, Result<Counter, Refused>)
    ensures { well_formed area.old ≡ true → result.1 ≡ Ok (counter (found_after result.0 (ceiling area.old) value n)) }
{
    let answer = journal::raise_part(area, value, n);
    (answer, journal::restart(area))
}

fn restart_after_raise(
    area: &mut [u8],
    value: u64,
) -> (Result<(), Refused>, Result<Counter, Refused>)
    ensures { well_formed area.old ≡ true → result.1 ≡ Ok (counter (found_after result.0 (ceiling area.old) value store_count)) }
{
    let answer = journal::raise(area, value);
    (answer, journal::restart(area))
}
