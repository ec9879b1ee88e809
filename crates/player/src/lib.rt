#![tactic(auto)]

ghost use Rattle.std.specs.Prelude.{◌≡◌, ◌<◌, ◌≤◌};
ghost use Rattle.memory.specs.Memory.{memories};
ghost use Rattle.lines.specs.Stores.{Printed};
ghost use Rattle.player.specs.Output.{replay_text, output_of};
ghost use Rattle.scripts.specs.Scripts.{record_limit, within, script_of};
ghost use Rattle.player.specs.Player.{playing, Plays};
ghost use Rattle.records.specs.Stretches.{state};
ghost use Rattle.player.specs.Walks.{Goes, times, admitted, Fit};

use lines::Reason;
use machine::Machine;
use settings::Edition;

const GROUP_LEVELS: usize = 8;

#[derive(Clone, Copy)]
pub struct Played {
    pub machine: Machine,
    pub count: usize,
    pub reason: Reason,
}

// Whether a group may be run: an outermost one is read through first, and the groups in it have been by then.
#[tactic(auto, unfolding(crate::specs::Walks::admitted))]
fn is_admitted(list: &[u8], depth: usize) -> bool
    ensures { result ≡ admitted depth list.now }
{
    depth < GROUP_LEVELS || scripts::is_sound(list, depth)
}

// Runs a list of records as often as its rounds say, or up to the limit. Each turn of the loop runs a sound group, which has at least one
// record, or leaves: so the limit bounds the work, however many records the groups have in all. The machine is lent on field by field, since
// it would be copied as a whole by a function from elsewhere.
fn walk(
    list: &[u8],
    depth: usize,
    rounds: u16,
    start: Machine,
    done: usize,
    main: &mut [u8],
    management: &mut [u8],
    events: &mut [u64; 10000],
) -> Played
    requires fit { Fit depth rounds list.now }
    requires done_le_record_limit { done ≤ record_limit }
    ensures { Goes (state start (memories main.old management.old) done events.old)
        (times rounds (within depth list.now))
        (state result.machine (memories main.new management.new) result.count events.new) result.reason }
{
    let mut machine = start;
    let mut count = done;
    let mut place = 0;
    let mut left = rounds;
    let reason = loop {
        let ran = records::run(
            list,
            place,
            left,
            machine.anew(),
            count,
            main,
            management,
            events,
        );
        machine = ran.machine;
        count = ran.count;
        left = ran.left;
        let group = match ran.stop {
            Ok(group) => group,
            Err(reason) => break reason,
        };
        let inside = &list[group.start..group.next];
        if !is_admitted(inside, depth - 1) {
            break Reason::Bad;
        }
        let inner = walk(
            inside,
            depth - 1,
            group.count,
            machine.anew(),
            ran.count,
            main,
            management,
            events,
        );
        machine = inner.machine;
        count = inner.count;
        if inner.reason != Reason::End {
            break Reason::Limit;
        }
        place = group.next;
    };
    Played {
        machine,
        count,
        reason,
    }
}

// Plays a trace from its start, as the list of a level above the groups. What is noted of each record goes to the list, as many as there
// were records.
pub fn play(
    trace: &[u8],
    start: Machine,
    main: &mut [u8],
    management: &mut [u8],
    events: &mut [u64; 10000],
) -> Played
    ensures { Plays (script_of trace.now)
        (playing start (memories main.old management.old) trace.now)
        result (memories main.new management.new) events.old events.new }
{
    walk(
        trace,
        GROUP_LEVELS + 1,
        1,
        start,
        0,
        main,
        management,
        events,
    )
}

// Plays a trace and writes its text. The result is the text's size.
pub fn replay(
    trace: &[u8],
    start: Machine,
    main: &mut [u8],
    management: &mut [u8],
    out: &mut [u8; 130006],
) -> usize
    ensures prints { Printed (replay_text start (memories main.old management.old) trace.now)
        result out.old out.new }
    ensures leaves { memories main.new management.new
        ≡ (playing start (memories main.old management.old) trace.now).memory }
{
    let mut events = [0u64; 10000];
    let played = play(trace, start, main, management, &mut events);
    lines::write(&events, played.count, played.reason, out)
}

// All that the program of an edition prints for an input. The result is its size: there is no heap, so the caller lends the buffer.
pub fn output(edition: Edition, input: &[u8], out: &mut [u8; 130006]) -> usize
    ensures { Printed (output_of edition input.now) result out.old out.new }
{
    if 65536 < input.len() {
        return lines::write_long(out);
    }
    let mut main = [0u8; 65536];
    let mut management = [0u8; 65536];
    replay(
        input,
        Machine::initial(edition),
        &mut main,
        &mut management,
        out,
    )
}
