#![tactic(auto)]

ghost use Rattle.std.specs.Prelude.{◌≡◌, true, false, map, ◌<◌, ◌≤◌};
ghost use Rattle.std.proofs.lemmas.List.Edits.{sets};
ghost use Rattle.header.specs.Header.{level_number, level_of, size_bits, port_size, cut, trap, trap_of, boundary_saved, smint_saved, contents, upward, words_bytes, headed, resumed, nested_in};
ghost use Rattle.header.specs.ReadBack.{TableFills, SavedFits, WordsReadBack, RegistersReadBack, NestedReadBack};
ghost use Rattle.header.specs.Entry.{entry_cs, entry_registers};

use memory::Segment;
use steps::{Interruption, Transfer};

// The privilege level.
#[derive(Clone, Copy, PartialEq, Eq)]
pub enum Level {
    Zero,
    One,
    Two,
    Three,
}

impl From<u8> for Level {
    ghost from_gives = { λ n level. level ≡ level_of n };

    fn from(n: u8) -> Level {
        match n {
            0 => Level::Zero,
            1 => Level::One,
            2 => Level::Two,
            _ => Level::Three,
        }
    }
}

impl From<Level> for u32 {
    ghost from_gives = { λ level n. (n ≡ level_number level) × (n < 4) };

    fn from(level: Level) -> u32 {
        level as u32
    }
}

// The registers that entry saves and RSM loads.
#[derive(Clone, Copy)]
pub struct Registers {
    pub eip: u32,
    pub eflags: u32,
    pub cr0: u32,
    pub dr7: u32,
    pub cs: Segment,
    pub level: Level,
    pub writable: bool,
}

// What a header records of an interruption: each field has its place in the header's table, so what there is none of is 0.
#[derive(Clone, Copy)]
pub struct Trap {
    pub output: bool,
    pub rep: bool,
    pub transfer: u32,
    pub value: u32,
    pub index: u32,
}

// What entry records.
#[derive(Clone, Copy)]
pub struct Saved {
    pub registers: Registers,
    pub current: u32,
    pub next: u32,
    pub trap: Trap,
    pub smint: bool,
    pub halted: bool,
    pub nested: bool,
}

// An output's size as a header has it.
#[tactic(auto, unfolding(crate::specs::Header::size_bits))]
fn size_bits(size: u8) -> u32
    ensures { (result ≡ size_bits size) × (result ≤ 15) }
{
    match size {
        1 => 0x1,
        2 => 0x3,
        _ => 0xF,
    }
}

// The word of a transfer's port and size.
fn port_size(t: Transfer) -> u32
    ensures { result ≡ port_size t }
{
    u32::from(t.port) + 65536 * size_bits(t.size)
}

// A transfer's value, cut to its size.
#[tactic(auto, unfolding(crate::specs::Header::cut))]
fn cut_value(t: Transfer) -> u32
    ensures { result ≡ cut t }
{
    match t.size {
        1 => t.value % 256,
        2 => t.value % 65536,
        _ => t.value,
    }
}

fn output_trap(t: Transfer, rep: bool, index: u32) -> Trap
    ensures { result ≡ trap true rep (port_size t) (cut t) index }
{
    Trap {
        output: true,
        rep,
        transfer: port_size(t),
        value: cut_value(t),
        index,
    }
}

fn input_trap(rep: bool, index: u32) -> Trap
    ensures { result ≡ trap false rep 0 0 index }
{
    Trap {
        output: false,
        rep,
        transfer: 0,
        value: 0,
        index,
    }
}

// What a header records of an interruption.
fn trap_of(i: Interruption) -> Trap
    ensures { result ≡ trap_of i }
{
    match i {
        Interruption::None | Interruption::Input => input_trap(false, 0),
        Interruption::Output(t) => output_trap(t, false, 0),
        Interruption::StringInput(x) => input_trap(false, x),
        Interruption::StringOutput(t, x) => output_trap(t, false, x),
        Interruption::RepInput(x) => input_trap(true, x),
        Interruption::RepOutput(t, x) => output_trap(t, true, x),
    }
}

// What entry at a boundary records.
pub fn saved_at_boundary(
    registers: Registers,
    halted: bool,
    inside: bool,
    current: u32,
    interruption: Interruption,
) -> Saved
    ensures { result ≡ boundary_saved registers halted inside current interruption }
{
    let trap = trap_of(interruption);
    let current = if halted { registers.eip } else { current };
    let next = if trap.rep { current } else { registers.eip };
    Saved {
        registers,
        current,
        next,
        trap,
        smint: false,
        halted,
        nested: inside,
    }
}

// What entry by SMINT records.
pub fn saved_by_smint(registers: Registers, halted: bool, next: u32) -> Saved
    ensures { result ≡ smint_saved registers halted next }
{
    Saved {
        registers,
        current: registers.eip,
        next,
        trap: trap_of(Interruption::None),
        smint: true,
        halted,
        nested: false,
    }
}

// The twelve words, upward.
fn words_of(s: Saved) -> [u32; 12]
    ensures { result ≡ map (contents s) upward }
{
    let registers = s.registers;
    let trap = s.trap;
    let flags = u32::from(registers.writable)
        + 2 * u32::from(trap.output)
        + 4 * u32::from(trap.rep)
        + 8 * u32::from(s.smint)
        + 16 * u32::from(s.halted)
        + 32768 * u32::from(s.nested);
    let cs = registers.cs;
    [
        trap.index,
        trap.value,
        trap.transfer,
        flags,
        (cs.descriptor % 4294967296) as u32,
        (cs.descriptor / 4294967296) as u32,
        u32::from(cs.selector) + 2097152 * u32::from(registers.level),
        s.next,
        s.current,
        registers.cr0,
        registers.eflags,
        registers.dr7,
    ]
}

// Stores words, one after the other.
fn put_words(area: &mut [u8], at: u32, words: &[u32; 12])
    ensures { area.new ≡ sets area.old at (words_bytes words.now) }
{
    for (i, word) in words.iter().enumerate() {
        fields::store_at(area, at as usize + 4 * i, 4, *word as u64);
    }
}

// Writes the header's 48 bytes from a place of management memory on; past its end, nothing.
#[tactic(auto, unfolding(crate::specs::Header::headed, crate::specs::Header::header_bytes))]
pub fn write(management: &mut [u8], at: u32, s: Saved)
    ensures { management.new ≡ headed management.old at s }
{
    put_words(management, at, &words_of(s));
}

// The registers that RSM loads from the header at a place of management memory.
#[tactic(auto, unfolding(crate::specs::Header::resumed))]
pub fn read(management: &[u8], at: u32) -> Registers
    ensures { result ≡ resumed management.now at }
{
    let at = at as usize;
    let flags: u32 = fields::number(management, at + 12);
    let low: u32 = fields::number(management, at + 16);
    let high: u32 = fields::number(management, at + 20);
    let selector: u32 = fields::number(management, at + 24);
    Registers {
        eip: fields::number(management, at + 28),
        eflags: fields::number(management, at + 40),
        cr0: fields::number(management, at + 36),
        dr7: fields::number(management, at + 44),
        cs: Segment {
            selector: (selector % 65536) as u16,
            descriptor: u64::from(low) + 4294967296 * u64::from(high),
        },
        level: Level::from((selector / 2097152 % 4) as u8),
        writable: flags % 2 == 1,
    }
}

// Whether the header at a place of management memory is of an entry from inside the mode.
pub fn is_nested(management: &[u8], at: u32) -> bool
    ensures { result ≡ nested_in management.now at }
{
    fields::number::<u32>(management, at as usize + 12) / 32768 % 2 == 1
}

// CS after entry to a region at a base.
fn entry_cs(base: u32) -> Segment
    ensures { result ≡ entry_cs base }
{
    let [low, second, third, high] = base.to_le_bytes();
    Segment {
        selector: (256 * (base / 4096 % 256)) as u16,
        descriptor: u64::from_le_bytes([0xFF, 0xFF, low, second, third, 0x93, 0x8F, high]),
    }
}

// The registers after entry to a region at a base.
#[tactic(auto, unfolding(crate::specs::Entry::entry_registers, crate::specs::Entry::entry_cr0))]
pub fn entry_registers(r: Registers, base: u32) -> Registers
    ensures { result ≡ entry_registers r base }
{
    Registers {
        eip: 0,
        eflags: 2,
        cr0: r.cr0 & 0x7FFFFFF2,
        dr7: 0x400,
        cs: entry_cs(base),
        level: Level::Zero,
        writable: true,
    }
}

// No code of the model: these hold the gate to the numbers' widths, and to what the table is for.
fn widths(s: Saved)
    ensures { SavedFits s }
{}

fn laws()
    ensures fills { TableFills }
    ensures words { WordsReadBack }
    ensures registers { RegistersReadBack }
    ensures nested { NestedReadBack }
{}
