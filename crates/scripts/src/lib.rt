// The steps that a list of records holds, groups written out: here, whether they can all be read.
#![tactic(auto)]

ghost use Rattle.std.specs.Prelude.{◌≡◌};
ghost use Rattle.scripts.specs.Scripts.{is_end, within, Unbounded, ReadsOn, MoreLevels};
ghost use Rattle.scripts.specs.Former.{UpToGroups, Groupless, SameAsFormerly, one_wake};
ghost use Rattle.scripts.specs.Written.{Concatenates, WrittenOut, Writable, CountsWritten, EightLevels, EveryCountWritten, GroupsWritten};

use trace::{Ending, Found, Group};

// Whether a group's list is read to its end, where as many levels as depth are left, its own among them.
pub fn is_sound(list: &[u8], depth: usize) -> bool
    ensures { result ≡ is_end (within depth list.now).reason }
{
    if depth == 0 {
        return false;
    }
    let mut place: usize = 0;
    loop {
        match trace::pass(list, place) {
            Ok(Found::Record { next, .. }) => {
                place = next;
            }
            Ok(Found::Group(Group { start, next, .. })) => {
                if !is_sound(&list[start..next], depth - 1) {
                    return false;
                }
                place = next;
            }
            Err(ending) => {
                return ending == Ending::End;
            }
        }
    }
}

// No code of the model: it holds the gate to what the reading of a trace is, and was.
fn laws()
    ensures unbounded { Unbounded }
    ensures groups { UpToGroups }
    ensures formerly { SameAsFormerly }
    ensures example { Groupless one_wake }
    ensures concatenates { Concatenates }
    ensures written { WrittenOut }
    ensures writable { Writable one_wake }
    ensures counts { CountsWritten }
    ensures levels { EightLevels }
    ensures reads_on { ReadsOn }
    ensures more_levels { MoreLevels }
    ensures every_count { EveryCountWritten }
    ensures in_groups { GroupsWritten }
{}
