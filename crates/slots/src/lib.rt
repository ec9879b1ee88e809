// The slots of a journal's area (02, request 4): how a lent area is read.
#![tactic(auto)]

ghost use Rattle.std.specs.Prelude.{◌≡◌, true, false, ℕ, ◌+◌, ◌*◌, ◌<◌, ◌≤◌, ◌&&◌, ◌||◌, eqb, ltb, length};
ghost use Rattle.slots.specs.Area.{slot_count, slot_size, taken_kind, taken, length_of, kind_of, ceiling_of, ceiling_before};
ghost use Rattle.slots.specs.Contents.{continues, contents_of};

const AREA_SIZE: usize = 4096;

pub const SLOT_COUNT: usize = 341;

pub const SLOT_SIZE: usize = 12;
// Where the kind and the ceiling begin in a slot; its length is at its start.
pub const KIND_AT: usize = 2;

const CEILING_AT: usize = 4;

pub const TAKEN_LENGTH: u16 = 10;

pub const TAKEN_KIND: u16 = 1;

// What a well-formed area holds: how many slots are taken, from the first on, and the last ceiling, 0 with none.
#[derive(Clone, Copy, PartialEq, Eq)]
pub struct Taken {
    pub count: usize,
    pub ceiling: u64,
}

impl Taken {
    // Whether no slot is left.
    pub fn is_full(self) -> bool
        ensures { result ≡ eqb self.count slot_count }
    {
        self.count == SLOT_COUNT
    }
}

// An area that is not well formed.
#[derive(Clone, Copy, PartialEq, Eq)]
pub struct Malformed;

// The fields of a slot's bytes, by their names: it is the first slot in them.
fn length_of(slot: &[u8]) -> u16
    ensures { result ≡ length_of slot.now 0 }
{
    fields::number(slot, 0)
}

fn kind_of(slot: &[u8]) -> u16
    ensures { result ≡ kind_of slot.now 0 }
{
    fields::number(slot, KIND_AT)
}

fn ceiling_of(slot: &[u8]) -> u64
    ensures { result ≡ ceiling_of slot.now 0 }
{
    fields::number(slot, CEILING_AT)
}

// Whether a slot is taken, has the right kind, and holds more than the last ceiling before it.
fn is_next(slot: &[u8], before: Taken) -> bool
    ensures { result ≡ (taken slot.now 0 && eqb (kind_of slot.now 0) taken_kind && (eqb before.count 0 || ltb before.ceiling (ceiling_of slot.now 0))) }
{
    length_of(slot) == TAKEN_LENGTH
        && kind_of(slot) == TAKEN_KIND
        && (before.count == 0 || before.ceiling < ceiling_of(slot))
}

// Slots from the first on that are taken, in order.
fn leading(area: &[u8]) -> Taken
    ensures fits { slot_size * result.count ≤ length area.now }
    ensures last { result.ceiling ≡ ceiling_before area.now result.count }
    ensures each { (k : ℕ) → k < result.count → continues area.now k ≡ true }
    ensures stops { slot_size * (result.count + 1) ≤ length area.now → continues area.now result.count ≡ false }
{
    let mut found = Taken {
        count: 0,
        ceiling: 0,
    };
    for slot in area.chunks_exact(SLOT_SIZE) {
        if !is_next(slot, found) {
            return found;
        }
        found = Taken {
            count: found.count + 1,
            ceiling: ceiling_of(slot),
        };
    }
    found
}

// Whether all slots in these bytes are free.
fn are_free(slots: &[u8]) -> bool
    ensures sound { (k : ℕ) → result ≡ true → slot_size * (k + 1) ≤ length slots.now → length_of slots.now k ≡ 0 }
    ensures complete { ((k : ℕ) → slot_size * (k + 1) ≤ length slots.now → length_of slots.now k ≡ 0) → result ≡ true }
{
    slots
        .chunks_exact(SLOT_SIZE)
        .all(|slot| length_of(slot) == 0)
}

// One pass: the taken slots, and then the free ones.
// The hint keeps what it answers in the registers of its callers.
#[inline]
pub fn read(area: &[u8]) -> Result<Taken, Malformed>
    ensures { result ≡ contents_of area.now }
{
    if area.len() != AREA_SIZE {
        return Err(Malformed);
    }
    let found = leading(area);
    if are_free(&area[SLOT_SIZE * found.count..]) {
        Ok(found)
    } else {
        Err(Malformed)
    }
}
