// The player as C finds it: the functions of export under the names of the header, with their contracts.
#![tactic(auto)]

ghost use Rattle.settings.specs.declared.Edition.TheVariants.{Cx486, Mii};
ghost use Rattle.memory.specs.Memory.{memories};
ghost use Rattle.export.specs.Export.{Replays, SaysWord};

#[unsafe(no_mangle)]
pub extern "C" fn rostuvlad_replay(
    trace: &[u8],
    main: &mut [u8],
    management: &mut [u8],
    events: &mut [u64; 10000],
    reason: &mut u8,
) -> usize
    ensures replays { Replays Cx486 trace.now (memories main.old management.old)
        result (memories main.new management.new) events.old events.new reason.new }
    ensures word { SaysWord trace.now reason.new }
{
    export::rostuvlad_replay(trace, main, management, events, reason)
}

#[unsafe(no_mangle)]
pub extern "C" fn rostuvlad_replay_mii(
    trace: &[u8],
    main: &mut [u8],
    management: &mut [u8],
    events: &mut [u64; 10000],
    reason: &mut u8,
) -> usize
    ensures replays { Replays Mii trace.now (memories main.old management.old)
        result (memories main.new management.new) events.old events.new reason.new }
    ensures word { SaysWord trace.now reason.new }
{
    export::rostuvlad_replay_mii(trace, main, management, events, reason)
}
