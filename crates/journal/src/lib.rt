// The record counter's journal over a lent area (02, request 4): ceilings that outlive a power cut, and the numbers below them.
#![tactic(auto)]

ghost use Rattle.std.specs.Prelude.{◌≡◌, cond, ◌-◌, ◌*◌, ◌/◌, ◌%◌, ◌^◌, ◌<◌, eqb, get_or, set, take};
ghost use Rattle.slots.specs.Area.{slot_count};
ghost use Rattle.journal.specs.Stores.{store, stores, store_count, made};
ghost use Rattle.journal.specs.Answers.{refused, restart_of, next_of, left, raise_of, raise_part_of};

use slots::{KIND_AT, Malformed, SLOT_SIZE, TAKEN_KIND, TAKEN_LENGTH};

// The byte stores of a raise.
const STORE_COUNT: u8 = 11;

// The next number to hand out.
#[derive(Clone, Copy, PartialEq, Eq)]
pub struct Counter {
    pub next: u64,
}

// The one answer of a call that is not served.
#[derive(Clone, Copy, PartialEq, Eq)]
pub struct Refused;

impl From<Malformed> for Refused {
    ghost from_gives = { λ _ r. r ≡ refused };

    fn from(_malformed: Malformed) -> Refused {
        Refused
    }
}

// One byte store of a raise.
#[derive(Clone, Copy, PartialEq, Eq)]
pub struct Store {
    pub at: usize,
    pub byte: u8,
}

#[tactic(auto, unfolding(crate::specs::Answers::restart_of, slots::specs::Contents::contents_of))]
pub fn restart(area: &[u8]) -> Result<Counter, Refused>
    ensures { result ≡ restart_of area.now }
{
    let found = slots::read(area)?;
    Ok(Counter {
        next: found.ceiling,
    })
}

// The number handed out, and the counter for the next call.
#[tactic(auto, unfolding(crate::specs::Answers::next_of, slots::specs::Contents::contents_of))]
pub fn next(counter: Counter, area: &[u8]) -> Result<(u64, Counter), Refused>
    ensures { result ≡ next_of counter area.now }
{
    let number = counter.next;
    let found = slots::read(area)?;
    if number < found.ceiling {
        Ok((number, Counter { next: number + 1 }))
    } else {
        Err(Refused)
    }
}

// The i-th store of a raise.
fn store_of(slot: usize, value: u64, i: usize) -> Store
    requires { (slot < slot_count) × (i < store_count) }
    ensures { result ≡ get_or (stores slot value) i (store 0 0) }
{
    let at = SLOT_SIZE * slot;
    if i < 2 {
        Store {
            at: at + KIND_AT + i,
            byte: TAKEN_KIND.to_le_bytes()[i],
        }
    } else if i < 10 {
        Store {
            at: at + KIND_AT + i,
            byte: value.to_le_bytes()[i - 2],
        }
    } else {
        Store {
            at,
            byte: TAKEN_LENGTH as u8,
        }
    }
}

// The one place where a byte of an area is written, as long as there is power left: a count of stores. What is left then.
fn store_one(area: &mut [u8], s: Store, power: u8) -> u8
    ensures area { area.new ≡ cond (eqb power 0) area.old (set area.old s.at s.byte) }
    ensures power { result ≡ power - 1 }
{
    if power == 0 {
        return 0;
    }
    // After a write through `get_mut` a proof knows no byte of the area.
    if s.at < area.len() {
        area[s.at] = s.byte;
    }
    power - 1
}

// The stores of a raise, one after the other. Nothing here asks how much power there is.
fn store_all(area: &mut [u8], slot: usize, value: u64, power: u8)
    requires { slot < slot_count }
    ensures { area.new ≡ made (take power (stores slot value)) area.old }
{
    let mut left = power;
    for i in 0..usize::from(STORE_COUNT) {
        left = store_one(area, store_of(slot, value, i), left);
    }
}

// A raise with power for n of its stores.
#[tactic(auto, using(crate::proofs::Answering::first_free_most), unfolding(crate::specs::Answers::raise_part_of, crate::specs::Answers::refuses_raise, slots::specs::Contents::contents_of))]
pub fn raise_part(area: &mut [u8], value: u64, n: u8) -> Result<(), Refused>
    ensures { left result area.new ≡ raise_part_of area.old value n }
{
    let found = slots::read(area)?;
    if found.is_full() || value <= found.ceiling {
        return Err(Refused);
    }
    store_all(area, found.count, value, n);
    Ok(())
}

#[tactic(auto, using(crate::proofs::Answering::part_whole))]
pub fn raise(area: &mut [u8], value: u64) -> Result<(), Refused>
    ensures { left result area.new ≡ raise_of area.old value }
{
    raise_part(area, value, STORE_COUNT)
}
