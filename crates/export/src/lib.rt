// The player for Rust and C to call: numbers and slices only, and a function for each edition, as C has them by their names. The crate export_c
// hands them to C under these names.
#![tactic(auto)]

ghost use Rattle.std.specs.Prelude.{◌≡◌};
ghost use Rattle.settings.specs.declared.Edition.TheVariants.{Cx486, Mii};
ghost use Rattle.memory.specs.Memory.{memories};
ghost use Rattle.export.specs.Export.{reason_number, EventInNumbers, Replays, SaysWord};

use lines::Reason;
use machine::Machine;
use settings::Edition;

fn reason_number(reason: Reason) -> u8
    ensures { result ≡ reason_number reason }
{
    reason as u8
}

// Plays a trace from a machine of an edition after a reset. The result is the count of records; the number of the reason to stop goes to
// reason.
fn replay(
    edition: Edition,
    trace: &[u8],
    main: &mut [u8],
    management: &mut [u8],
    events: &mut [u64; 10000],
    reason: &mut u8,
) -> usize
    ensures replays { Replays edition trace.now (memories main.old management.old)
        result (memories main.new management.new) events.old events.new reason.new }
    ensures word { SaysWord trace.now reason.new }
{
    let played = player::play(trace, Machine::initial(edition), main, management, events);
    *reason = reason_number(played.reason);
    played.count
}

// The 486 edition.
pub fn rostuvlad_replay(
    trace: &[u8],
    main: &mut [u8],
    management: &mut [u8],
    events: &mut [u64; 10000],
    reason: &mut u8,
) -> usize
    ensures replays { Replays Cx486 trace.now (memories main.old management.old)
        result (memories main.new management.new) events.old events.new reason.new }
    ensures word { SaysWord trace.now reason.new }
{
    replay(Edition::Cx486, trace, main, management, events, reason)
}

// The later edition.
pub fn rostuvlad_replay_mii(
    trace: &[u8],
    main: &mut [u8],
    management: &mut [u8],
    events: &mut [u64; 10000],
    reason: &mut u8,
) -> usize
    ensures replays { Replays Mii trace.now (memories main.old management.old)
        result (memories main.new management.new) events.old events.new reason.new }
    ensures word { SaysWord trace.now reason.new }
{
    replay(Edition::Mii, trace, main, management, events, reason)
}

// No code: the bits of an event.
fn numbers()
    ensures { EventInNumbers }
{}
