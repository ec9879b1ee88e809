#![tactic(auto)]

ghost use Rattle.std.specs.Prelude.{◌≡◌, ◌^◌, ◌≤◌, ◌<◌, min};
ghost use Rattle.memory.specs.Memory.{segment, memories, byte_at, store_byte, absent, all_there, load, store, reaches, reads, writes, segment_at, store_segment, cell_of};
ghost use Rattle.memory.specs.Route.{Whole, cell_at};

use region::Region;
use steps::Answer;

// The two memories are lent side by side: a struct of two references would need a clause on their names in each contract. Numbers are widened
// by `as`, which a proof sees through; of `From` it has an equation.

// A segment register: in memory the descriptor's eight bytes, and then the selector's two.
#[derive(Clone, Copy)]
pub struct Segment {
    pub selector: u16,
    pub descriptor: u64,
}

pub fn segment_of(selector: u16, descriptor: u64) -> Segment
    ensures { result ≡ segment selector descriptor }
{
    Segment {
        selector,
        descriptor,
    }
}

// The same segment, put together anew: so the gap between its fields is not copied.
pub fn fresh(s: Segment) -> Segment
    ensures { result ≡ s }
{
    segment_of(s.selector, s.descriptor)
}

// Where a byte lies: its memory, and its number there.
#[derive(Clone, Copy)]
enum Place {
    Main(usize),
    Management(usize),
}

// An address is management memory's in the window, and main memory's elsewhere.
#[tactic(auto, unfolding(crate::specs::Memory::cell_of))]
fn place_of(window: Region, address: u64) -> Place
    ensures { cell_at result ≡ cell_of window address }
{
    if window.contains(address) {
        Place::Management((address - window.base as u64) as usize)
    } else {
        Place::Main(address as usize)
    }
}

// The byte at an address.
#[tactic(auto, unfolding(crate::specs::Memory::byte_at))]
fn byte_at(window: Region, main: &[u8], management: &[u8], address: u64) -> u8
    ensures { result ≡ byte_at window (memories main.now management.now) address }
{
    match place_of(window, address) {
        Place::Main(k) => main.get(k).copied().unwrap_or(0),
        Place::Management(k) => management.get(k).copied().unwrap_or(0),
    }
}

// Stores a byte at an address.
#[tactic(auto, unfolding(crate::specs::Memory::store_byte))]
fn store_byte(window: Region, main: &mut [u8], management: &mut [u8], address: u64, value: u8)
    ensures { memories main.new management.new
        ≡ store_byte window (memories main.old management.old) address value }
{
    match place_of(window, address) {
        Place::Main(k) if k < main.len() => main[k] = value,
        Place::Management(k) if k < management.len() => management[k] = value,
        _ => {}
    }
}

// Whether no memory answers an address, where main memory has a given length.
#[tactic(auto, unfolding(crate::specs::Memory::absent))]
fn is_absent(window: Region, end: usize, address: u64) -> bool
    ensures { result ≡ absent window end address }
{
    0xFFFFFFFF < address || !window.contains(address) && end as u64 <= address
}

// Whether a memory answers each of count bytes from an address on, where main memory has a given length.
pub fn all_there(window: Region, end: usize, address: u32, count: u8) -> bool
    ensures { result ≡ all_there window end address count }
{
    let first = address as u64;
    (first..first + count as u64).all(|at| !is_absent(window, end, at))
}

// The little-endian number in count bytes from an address on.
fn load_at(window: Region, main: &[u8], management: &[u8], address: u64, count: u8) -> u64
    requires { (address ≤ 4294967303) × (count ≤ 8) }
    ensures value { result ≡ load window (memories main.now management.now) address count }
    ensures bounded { result < 256 ^ count }
{
    let mut value: u64 = 0;
    for i in (0..count).rev() {
        value = value * 256 + byte_at(window, main, management, address + i as u64) as u64;
    }
    value
}

// Stores the count low bytes of a value, little-endian, from an address on.
fn store_at(
    window: Region,
    main: &mut [u8],
    management: &mut [u8],
    address: u64,
    count: u8,
    value: u64,
)
    requires { address ≤ 4294967303 }
    ensures { memories main.new management.new
        ≡ store window (memories main.old management.old) address count value }
{
    let mut rest = value;
    for at in address..address + count as u64 {
        store_byte(window, main, management, at, (rest % 256) as u8);
        rest /= 256;
    }
}

// Where an access lies whose bytes are all there and in one memory; none where they are to be taken one by one. A region has no gap and
// at least 4,096 bytes, so that the region test of the first and the last byte decides for all between.
fn place_of_all(window: Region, end: usize, address: u32, count: u8) -> Option<Place>
    ensures { Whole window end address count result }
{
    let first = address as u64;
    let past = first + count as u64;
    if count == 0 || 0x100000000 < past {
        return None;
    }
    let last = past - 1;
    match place_of(window, first) {
        Place::Management(k) if window.contains(last) => Some(Place::Management(k)),
        Place::Main(k) if last < end as u64 && !window.contains(last) => Some(Place::Main(k)),
        _ => None,
    }
}

#[tactic(auto, unfolding(crate::specs::Memory::reads))]
fn read_bytewise(window: Region, main: &[u8], management: &[u8], address: u32, count: u8) -> Answer
    requires { count ≤ 4 }
    ensures { result ≡ reads window (memories main.now management.now) address count }
{
    if all_there(window, main.len(), address, count) {
        Answer::Value(load_at(window, main, management, address as u64, count) as u32)
    } else {
        Answer::Absent
    }
}

#[tactic(auto, unfolding(crate::specs::Memory::writes))]
fn write_bytewise(
    window: Region,
    main: &mut [u8],
    management: &mut [u8],
    address: u32,
    count: u8,
    value: u64,
) -> Answer
    ensures { reaches result (memories main.new management.new)
        ≡ writes window (memories main.old management.old) address count value }
{
    if all_there(window, main.len(), address, count) {
        store_at(window, main, management, address as u64, count, value);
        Answer::Done
    } else {
        Answer::Absent
    }
}

// Reads width bytes from an address on; a width above 4 is taken as 4.
pub fn read(window: Region, main: &[u8], management: &[u8], address: u32, width: u8) -> Answer
    ensures { result ≡ reads window (memories main.now management.now) address (min width 4) }
{
    let count = width.min(4);
    match place_of_all(window, main.len(), address, count) {
        Some(Place::Main(k)) => Answer::Value(fields::number_at(main, k, count) as u32),
        Some(Place::Management(k)) => Answer::Value(fields::number_at(management, k, count) as u32),
        None => read_bytewise(window, main, management, address, count),
    }
}

// Writes the width low bytes of a value from an address on, those above its fourth as 0; where a byte is absent, nothing is written.
pub fn write(
    window: Region,
    main: &mut [u8],
    management: &mut [u8],
    address: u32,
    width: u8,
    value: u32,
) -> Answer
    ensures { reaches result (memories main.new management.new)
        ≡ writes window (memories main.old management.old) address width value }
{
    let value = value as u64;
    match place_of_all(window, main.len(), address, width) {
        Some(Place::Main(k)) => fields::store_at(main, k, width, value),
        Some(Place::Management(k)) => fields::store_at(management, k, width, value),
        None => return write_bytewise(window, main, management, address, width, value),
    }
    Answer::Done
}

// The number in the four bytes from an address on.
pub fn load_word(window: Region, main: &[u8], management: &[u8], address: u32) -> u32
    ensures { result ≡ load window (memories main.now management.now) address 4 }
{
    load_at(window, main, management, address as u64, 4) as u32
}

// Stores a number's four bytes from an address on.
pub fn store_word(window: Region, main: &mut [u8], management: &mut [u8], address: u32, value: u32)
    ensures { memories main.new management.new
        ≡ store window (memories main.old management.old) address 4 value }
{
    store_at(window, main, management, address as u64, 4, value as u64);
}

// The segment in the ten bytes from an address on.
#[tactic(auto, unfolding(crate::specs::Memory::segment_at))]
pub fn load_segment(window: Region, main: &[u8], management: &[u8], address: u32) -> Segment
    ensures { result ≡ segment_at window (memories main.now management.now) address }
{
    let descriptor = load_at(window, main, management, address as u64, 8);
    let selector = load_at(window, main, management, address as u64 + 8, 2) as u16;
    segment_of(selector, descriptor)
}

// Stores a segment's ten bytes from an address on.
#[tactic(auto, unfolding(crate::specs::Memory::store_segment))]
pub fn store_segment(
    window: Region,
    main: &mut [u8],
    management: &mut [u8],
    address: u32,
    s: Segment,
)
    ensures { memories main.new management.new
        ≡ store_segment window (memories main.old management.old) address s }
{
    store_at(window, main, management, address as u64, 8, s.descriptor);
    store_at(
        window,
        main,
        management,
        address as u64 + 8,
        2,
        s.selector as u64,
    );
}
