#![tactic(auto)]

ghost use Rattle.memory.specs.Memory.{memories};
ghost use Rattle.records.specs.Stretches.{state, Stretches};

use lines::Reason;
use machine::Machine;
use trace::{Found, Group};

const RECORD_LIMIT: usize = 10000;

// What a stretch of records leaves; left are the rounds of the list that are not done, the present one among them. It ends at a group, or there
// is a reason to stop.
#[derive(Clone, Copy)]
pub struct Ran {
    pub machine: Machine,
    pub count: usize,
    pub left: u16,
    pub stop: Result<Group, Reason>,
}

// Runs the records from a place of a list on, for as many rounds as are not done, up to a group or a reason to stop. The next round begins
// in the turn of the loop that runs its first record, so that each turn runs one or leaves. What is noted of each record goes to the list of
// events. The machine is put together anew, so that the loop doesn't copy the gaps between its fields. The memories and the events stay three
// parameters: a struct of references would need a clause on their names in each contract.
pub fn run(
    list: &[u8],
    from: usize,
    rounds: u16,
    start: Machine,
    done: usize,
    main: &mut [u8],
    management: &mut [u8],
    events: &mut [u64; 10000],
) -> Ran
    ensures { Stretches list.now from rounds
        (state start (memories main.old management.old) done events.old)
        (state result.machine (memories main.new management.new) result.count events.new) result.left result.stop }
{
    let mut machine = start;
    let mut place = from;
    let mut left = rounds;
    let mut count = done;
    let stop = loop {
        if place >= list.len() {
            if left <= 1 {
                break Err(Reason::End);
            }
            left -= 1;
            place = 0;
        }
        if count >= RECORD_LIMIT {
            break Err(Reason::Limit);
        }
        match trace::record_at(list, place) {
            Ok(Found::Record { step, next }) => {
                let inside = machine.inside;
                let stepped = machine.step(main, management, step);
                events[count] = events::note(step, inside, stepped.answer);
                place = next;
                count += 1;
                machine = stepped.machine;
            }
            Ok(Found::Group(group)) => break Ok(group),
            Err(ending) => break Err(Reason::from(ending)),
        }
    };
    Ran {
        machine: machine.anew(),
        count,
        left,
        stop,
    }
}
