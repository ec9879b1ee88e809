// The records of a trace: what stands at a place, and a reader that keeps the trace and its place.
#![tactic(auto)]

ghost use Rattle.std.specs.Prelude.{◌≡◌, ◌≤◌, cond, length, IfOk};
ghost use Rattle.trace.specs.Trace.{record_of, said, Sized, group_of, frame_at, found_at, passed, KindsAgree, listed, found_kind, group_stands, is_group};
ghost use Rattle.trace.specs.Former.{FoundAsFormerly};

use steps::Step;

// The kind of a group, and the size of its count.
const GROUP: u16 = 16;

const COUNT_SIZE: usize = 2;

// Why nothing is found at a place.
#[derive(Clone, Copy, PartialEq, Eq)]
pub enum Ending {
    End,
    Torn,
    Bad,
}

// A group: how often its list is run, the place of the list and the place past it.
#[derive(Clone, Copy)]
pub struct Group {
    pub count: u16,
    pub start: usize,
    pub next: usize,
}

// What stands at a place: a record, as what it says and the place past it, or a group.
#[derive(Clone, Copy)]
pub enum Found<S> {
    Record { step: S, next: usize },
    Group(Group),
}

// A record or a group as its length says it: its kind, the place of its body and the place past it.
#[derive(Clone, Copy)]
struct Frame {
    kind: u16,
    start: usize,
    next: usize,
}

// The kinds of the records.
#[derive(Clone, Copy)]
enum RecordKind {
    Reset,
    Registers,
    Read,
    Write,
    PortRead,
    PortWrite,
    Opcode,
    Boundary,
    Halt,
    Wake,
}

// The kind with a number, where its body has this size. One match tests both, so that what follows it knows the body's size.
impl TryFrom<(u16, usize)> for RecordKind {
    type Error = Ending;

    ghost try_from_gives = { λ said r. Sized said.0 said.1 r };

    #[tactic(auto, unfolding(crate::specs::Trace::is_kind, crate::specs::Trace::is_kind_by))]
    fn try_from(said: (u16, usize)) -> Result<Self, Ending> {
        match said {
            (1, 0) => Ok(RecordKind::Reset),
            (2, 28) => Ok(RecordKind::Registers),
            (3, 5) => Ok(RecordKind::Read),
            (4, 9) => Ok(RecordKind::Write),
            (5, 2) => Ok(RecordKind::PortRead),
            (6, 3) => Ok(RecordKind::PortWrite),
            (7, 10) => Ok(RecordKind::Opcode),
            (8, 17) => Ok(RecordKind::Boundary),
            (9, 0) => Ok(RecordKind::Halt),
            (10, 0) => Ok(RecordKind::Wake),
            _ => Err(Ending::Bad),
        }
    }
}

impl RecordKind {
    // The step that its body says.
    fn step(self, body: &[u8]) -> Step
        ensures { result ≡ (said self).step body.now }
    {
        match self {
            RecordKind::Reset => Step::Reset,
            RecordKind::Registers => Step::Registers {
                eip: fields::number(body, 0),
                eflags: fields::number(body, 4),
                cr0: fields::number(body, 8),
                dr7: fields::number(body, 12),
                selector: fields::number(body, 16),
                descriptor: fields::number(body, 18),
                level: fields::number(body, 26),
                writable: fields::number(body, 27),
            },
            RecordKind::Read => Step::Read {
                width: fields::number(body, 0),
                address: fields::number(body, 1),
            },
            RecordKind::Write => Step::Write {
                width: fields::number(body, 0),
                address: fields::number(body, 1),
                value: fields::number(body, 5),
            },
            RecordKind::PortRead => Step::PortRead {
                port: fields::number(body, 0),
            },
            RecordKind::PortWrite => Step::PortWrite {
                port: fields::number(body, 0),
                value: fields::number(body, 2),
            },
            RecordKind::Opcode => Step::Opcode {
                opcode: fields::number(body, 0),
                modrm: fields::number(body, 1),
                address: fields::number(body, 2),
                next: fields::number(body, 6),
            },
            RecordKind::Boundary => boundaries::boundary(body),
            RecordKind::Halt => Step::Halt,
            RecordKind::Wake => Step::Wake,
        }
    }
}

// The record of a kind and a body; next is the place past it.
#[tactic(auto, using(crate::proofs::Finding::record_said, crate::proofs::Finding::record_none))]
fn decode(kind: u16, body: &[u8], next: usize) -> Result<Found<Step>, Ending>
    ensures { result ≡ record_of kind body.now next }
{
    let kind = RecordKind::try_from((kind, body.len()))?;
    Ok(Found::Record {
        step: kind.step(body),
        next,
    })
}

// The group whose count and list lie from start to next.
#[tactic(auto, unfolding(crate::specs::Trace::group_of))]
fn group_in<S>(trace: &[u8], start: usize, next: usize) -> Result<Found<S>, Ending>
    ensures { result ≡ group_of trace.now start next }
{
    if next.saturating_sub(start) <= COUNT_SIZE {
        return Err(Ending::Bad);
    }
    let count: u16 = fields::number(trace, start);
    if count == 0 {
        return Err(Ending::Bad);
    }
    Ok(Found::Group(Group {
        count,
        start: start + COUNT_SIZE,
        next,
    }))
}

// The frame at any place of the trace, also past its end.
#[tactic(auto, unfolding(crate::specs::Trace::frame_at))]
fn frame_at(trace: &[u8], at: usize) -> Result<Frame, Ending>
    ensures frame { result ≡ frame_at trace.now at }
    ensures within { IfOk result (λ f. (f.start ≤ f.next) × (f.next ≤ length trace.now)) }
{
    if trace.len() <= at {
        return Err(Ending::End);
    }
    let left = trace.len() - at;
    if left < 2 {
        return Err(Ending::Torn);
    }
    let length = usize::from(fields::number::<u16>(trace, at));
    if left - 2 < length {
        return Err(Ending::Torn); // the length overshoots
    }
    if length < 2 {
        return Err(Ending::Bad);
    }
    Ok(Frame {
        kind: fields::number(trace, at + 2),
        start: at + 4,
        next: at + 2 + length,
    })
}

// What stands at any place of the trace, also past its end.
#[tactic(auto, using(crate::proofs::Finding::found_none, crate::proofs::Finding::found_group, crate::proofs::Finding::found_record))]
fn read_record(trace: &[u8], at: usize) -> Result<Found<Step>, Ending>
    ensures { result ≡ found_at trace.now at }
{
    let Frame { kind, start, next } = frame_at(trace, at)?;
    if kind == GROUP {
        return group_in(trace, start, next);
    }
    decode(kind, &trace[start..next], next)
}

// What stands at a place, passed over: a record's step isn't made.
#[tactic(auto, using(crate::proofs::Finding::passed_none, crate::proofs::Finding::passed_group, crate::proofs::Finding::passed_bad))]
pub fn pass(trace: &[u8], at: usize) -> Result<Found<()>, Ending>
    ensures { result ≡ passed (found_at trace.now at) }
{
    let Frame { kind, start, next } = frame_at(trace, at)?;
    if kind == GROUP {
        return group_in(trace, start, next);
    }
    RecordKind::try_from((kind, next - start))?;
    Ok(Found::Record { step: (), next })
}

// A reader keeps the trace that it was lent and its place. The functions over it only take it apart or put it together.
#[derive(Clone, Copy)]
pub struct Reader<'a> {
    pub trace: &'a [u8],
    pub place: usize,
}

pub fn at_place<'a>(trace: &'a [u8], place: usize) -> Reader<'a>
    ensures { (result.trace ≡ trace.entry) × (result.place ≡ place) }
{
    Reader { trace, place }
}

impl<'a> Reader<'a> {
    // What stands at its place.
    pub fn peek(self) -> Result<Found<Step>, Ending>
        ensures { result ≡ found_at self.entry.trace.now self.entry.place }
    {
        read_record(self.trace, self.place)
    }

    // The same reader at another place.
    pub fn moved(self, place: usize) -> Reader<'a>
        ensures { (result.trace ≡ self.entry.trace) × (result.place ≡ place) }
    {
        Reader { place, ..self }
    }
}

// The record at a place, by way of a reader, with plain parameters.
pub fn record_at(trace: &[u8], place: usize) -> Result<Found<Step>, Ending>
    ensures { result ≡ found_at trace.now place }
{
    at_place(trace, place).peek()
}

// No code of the model: it holds the gate to the kinds' numbers, and to what the reader found before there were groups.
fn laws()
    ensures kinds { KindsAgree }
    ensures formerly { FoundAsFormerly }
{}

// Not called, for what it ensures alone: of every number and every body, records have the kinds that 01 lists.
fn has_listed_kind(kind: u16, body: &[u8], next: usize) -> Result<Found<Step>, Ending>
    ensures { found_kind result ≡ cond (listed kind (length body.now)) kind 0 }
{
    decode(kind, body, next)
}

// Nor this one: groups are found where they stand, and nowhere else.
fn finds_groups(trace: &[u8], place: usize) -> Result<Found<Step>, Ending>
    ensures { is_group result ≡ group_stands trace.now place }
{
    record_at(trace, place)
}
