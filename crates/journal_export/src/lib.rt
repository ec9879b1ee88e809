// The record counter's journal (02, request 4) for Rust and C to call: numbers and slices only. The crate journal_export_c hands it to C under these
// names.
#![tactic(auto)]

ghost use Rattle.std.specs.Prelude.{◌≡◌, not, ◌&&◌, ltb};
ghost use Rattle.fields.specs.Fields.{bit};
ghost use Rattle.slots.specs.Area.{well_formed, ceiling as last_ceiling};
ghost use Rattle.journal.specs.Answers.{counter, restart_of, next_of, refuses_raise, raise_of, raise_part_of};
ghost use Rattle.journal_export.specs.Export.{started_result, started_next, handed_result, handed_next, handed_number, raised_result};

use journal::{Counter, Refused};

// The results are numbers, as C has them. They are stated twice: by the rules of 02, and as the bit "refused".
const DONE: u8 = 0;

const REFUSED: u8 = 1;

pub fn rostuvlad_journal_restart(area: &[u8], next: &mut u64) -> u8
    ensures result { result ≡ started_result (restart_of area.now) }
    ensures refused { result ≡ bit (not (well_formed area.now)) }
    ensures next { next.new ≡ started_next (restart_of area.now) next.old }
{
    let Ok(begun) = journal::restart(area) else {
        return REFUSED;
    };
    *next = begun.next;
    DONE
}

pub fn rostuvlad_journal_next(area: &[u8], next: &mut u64, number: &mut u64) -> u8
    ensures result { result ≡ handed_result (next_of (counter next.old) area.now) }
    ensures refused { result ≡ bit (not (well_formed area.now && ltb next.old (last_ceiling area.now))) }
    ensures next { next.new ≡ handed_next (next_of (counter next.old) area.now) next.old }
    ensures number { number.new ≡ handed_number (next_of (counter next.old) area.now) number.old }
{
    let Ok((given, after)) = journal::next(Counter { next: *next }, area) else {
        return REFUSED;
    };
    *next = after.next;
    *number = given;
    DONE
}

fn raised_result(answer: Result<(), Refused>) -> u8
    ensures { result ≡ raised_result answer }
{
    match answer {
        Ok(()) => DONE,
        Err(Refused) => REFUSED,
    }
}

pub fn rostuvlad_journal_raise(area: &mut [u8], ceiling: u64) -> u8
    ensures result { result ≡ raised_result (raise_of area.old ceiling).answer }
    ensures refused { result ≡ bit (refuses_raise area.old ceiling) }
    ensures area { area.new ≡ (raise_of area.old ceiling).area }
{
    raised_result(journal::raise(area, ceiling))
}

// A raise that stops after so many of its eleven stores.
pub fn rostuvlad_journal_raise_part(area: &mut [u8], ceiling: u64, stores: u8) -> u8
    ensures result { result ≡ raised_result (raise_part_of area.old ceiling stores).answer }
    ensures refused { result ≡ bit (refuses_raise area.old ceiling) }
    ensures area { area.new ≡ (raise_part_of area.old ceiling stores).area }
{
    raised_result(journal::raise_part(area, ceiling, stores))
}
