// The record counter's journal as C finds it: the functions of journal_export under the names of the header, with their contracts.
#![tactic(auto)]

ghost use Rattle.std.specs.Prelude.{◌≡◌, not, ◌&&◌, ltb};
ghost use Rattle.fields.specs.Fields.{bit};
ghost use Rattle.slots.specs.Area.{well_formed, ceiling as last_ceiling};
ghost use Rattle.journal.specs.Answers.{counter, restart_of, next_of, refuses_raise, raise_of, raise_part_of};
ghost use Rattle.journal_export.specs.Export.{started_result, started_next, handed_result, handed_next, handed_number, raised_result};

#[unsafe(no_mangle)]
pub extern "C" fn rostuvlad_journal_restart(area: &[u8], next: &mut u64) -> u8
    ensures result { result ≡ started_result (restart_of area.now) }
    ensures refused { result ≡ bit (not (well_formed area.now)) }
    ensures next { next.new ≡ started_next (restart_of area.now) next.old }
{
    journal_export::rostuvlad_journal_restart(area, next)
}

#[unsafe(no_mangle)]
pub extern "C" fn rostuvlad_journal_next(area: &[u8], next: &mut u64, number: &mut u64) -> u8
    ensures result { result ≡ handed_result (next_of (counter next.old) area.now) }
    ensures refused { result ≡ bit (not (well_formed area.now && ltb next.old (last_ceiling area.now))) }
    ensures next { next.new ≡ handed_next (next_of (counter next.old) area.now) next.old }
    ensures number { number.new ≡ handed_number (next_of (counter next.old) area.now) number.old }
{
    journal_export::rostuvlad_journal_next(area, next, number)
}

#[unsafe(no_mangle)]
pub extern "C" fn rostuvlad_journal_raise(area: &mut [u8], ceiling: u64) -> u8
    ensures result { result ≡ raised_result (raise_of area.old ceiling).answer }
    ensures refused { result ≡ bit (refuses_raise area.old ceiling) }
    ensures area { area.new ≡ (raise_of area.old ceiling).area }
{
    journal_export::rostuvlad_journal_raise(area, ceiling)
}

#[unsafe(no_mangle)]
pub extern "C" fn rostuvlad_journal_raise_part(area: &mut [u8], ceiling: u64, stores: u8) -> u8
    ensures result { result ≡ raised_result (raise_part_of area.old ceiling stores).answer }
    ensures refused { result ≡ bit (refuses_raise area.old ceiling) }
    ensures area { area.new ≡ (raise_part_of area.old ceiling stores).area }
{
    journal_export::rostuvlad_journal_raise_part(area, ceiling, stores)
}
