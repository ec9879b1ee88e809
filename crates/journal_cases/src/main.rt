// Plays a script over the record counter's journal (02, request 4), and writes it with the answer behind each command.
// A line is a name, a colon, and commands with their numbers; a semicolon or the line's end closes each. The colon brings a fresh area.
#![tactic(auto)]

use journal::{Counter, Refused};
use slots::{Malformed, Taken};
use std::io;

// All bytes that are ever lent: one more than an area has.
const SPACE: usize = 4097;

// A tenth of 2^64, rounded up.
const TENTH: u64 = 1844674407370955162;

// A call on the area.
#[derive(Clone, Copy)]
enum Call {
    Restart,
    Number,
    // raise VALUE; cut VALUE STORES, a raise that stops after so many stores
    Raise,
    Cut,
    // taken, how many slots are, and the ceiling; slot INDEX, its bytes
    Taken,
    Slot,
    // fill LIMIT, raises to 1, 2 and so on up to the limit
    Fill,
}

#[derive(Clone, Copy)]
enum Command {
    Call(Call),
    // by hand: put AT COUNT VALUE, the count low bytes of a value; counter NUMBER; size SIZE, how many bytes are lent from then on
    Put,
    Counter,
    Size,
    // keep, a copy of the bytes; changed, how many differ from the copy
    Keep,
    Changed,
}

// The first two letters of a command's name, as far as they are read.
#[derive(Clone, Copy)]
enum Letters {
    None,
    One(u8),
    Two(u8, u8),
}

impl Letters {
    // A zero byte before the name is passed over.
    fn with(self, letter: u8) -> Letters {
        match self {
            Letters::None if letter == 0 => Letters::None,
            Letters::None => Letters::One(letter),
            Letters::One(first) => Letters::Two(first, letter),
            Letters::Two(..) => self,
        }
    }

    fn command(self) -> Option<Command> {
        match self {
            Letters::Two(b'r', b'e') => Some(Command::Call(Call::Restart)),
            Letters::Two(b'n', b'u') => Some(Command::Call(Call::Number)),
            Letters::Two(b'r', b'a') => Some(Command::Call(Call::Raise)),
            Letters::Two(b'c', b'u') => Some(Command::Call(Call::Cut)),
            Letters::Two(b't', b'a') => Some(Command::Call(Call::Taken)),
            Letters::Two(b's', b'l') => Some(Command::Call(Call::Slot)),
            Letters::Two(b'f', b'i') => Some(Command::Call(Call::Fill)),
            Letters::Two(b'p', b'u') => Some(Command::Put),
            Letters::Two(b'c', b'o') => Some(Command::Counter),
            Letters::Two(b's', b'i') => Some(Command::Size),
            Letters::Two(b'k', b'e') => Some(Command::Keep),
            Letters::Two(b'c', b'h') => Some(Command::Changed),
            _ => None,
        }
    }
}

// The bytes that are lent, and the copy of them that was kept.
#[derive(Drop)]
struct Bytes {
    now: [u8; SPACE],
    kept: [u8; SPACE],
}

impl Bytes {
    fn fresh() -> Bytes {
        Bytes {
            now: [0; SPACE],
            kept: [0; SPACE],
        }
    }

    // How many bytes differ from the copy: at most SPACE. A fold over all of them, which takes many at once, as `filter` and `count` don't.
    fn changed(&self) -> u32 {
        self.now.iter().zip(&self.kept).fold(
            0u32,
            |count, (a, b)| count.wrapping_add(u32::from(a != b)),
        )
    }
}

// A command as far as it is read, by its first two letters, with the last three numbers in it; the next number to hand out; how many bytes
// are lent.
#[derive(Clone, Copy)]
struct Script {
    letters: Letters,
    first: u64,
    second: u64,
    third: u64,
    next: u64,
    size: usize,
}

fn digit_after(number: u64, digit: u8) -> u64 {
    (number % TENTH * 10).wrapping_add(u64::from(digit % 16))
}

fn low_byte(number: u64) -> u8 {
    (number % 256) as u8
}

impl Script {
    fn begun() -> Script {
        Script {
            letters: Letters::None,
            first: 0,
            second: 0,
            third: 0,
            next: 0,
            size: 4096,
        }
    }

    // A blank begins the next number.
    fn with_byte(self, byte: u8) -> Script {
        match byte {
            b' ' => Script {
                first: self.second,
                second: self.third,
                third: 0,
                ..self
            },
            b'0'..=b'9' => Script {
                third: digit_after(self.third, byte),
                ..self
            },
            _ => Script {
                letters: self.letters.with(byte),
                ..self
            },
        }
    }

    fn low_half(self) -> u16 {
        (self.third % 65536) as u16
    }
}

fn say_number(rt: &impl Print, number: u64) -> io::Result<()> {
    print!(rt; " {number}")
}

// A number, and what is next after it; after a refusal what is next stays. What is next then.
fn say_answer(
    rt: &impl Print,
    answer: Result<(u64, Counter), Refused>,
    next: u64,
) -> io::Result<u64> {
    match answer {
        Ok((number, counter)) => {
            say_number(rt, number)?;
            Ok(counter.next)
        }
        Err(Refused) => {
            print!(rt; " refused")?;
            Ok(next)
        }
    }
}

fn say_raised(rt: &impl Print, raised: Result<(), Refused>) -> io::Result<()> {
    match raised {
        Ok(()) => print!(rt; " done"),
        Err(Refused) => print!(rt; " refused"),
    }
}

fn filled(area: &mut [u8], limit: u16) -> usize {
    (1..=limit)
        .filter(|value| journal::raise(area, u64::from(*value)).is_ok())
        .count()
}

fn say_contents(rt: &impl Print, found: Result<Taken, Malformed>) -> io::Result<()> {
    match found {
        Ok(Taken { count, ceiling }) => print!(rt; " {count}, ceiling {ceiling}"),
        Err(Malformed) => print!(rt; " malformed"),
    }
}

fn say_slot(rt: &impl Print, area: &[u8], slot: u16) -> io::Result<()> {
    for i in 0..12 {
        let byte: u8 = fields::number(area, 12 * usize::from(slot) + i);
        print!(rt; " {byte:02x}")?;
    }
    Ok(())
}

// The next number that is left after a call.
fn called(rt: &impl Print, area: &mut [u8], call: Call, script: Script) -> io::Result<u64> {
    let next = script.next;
    match call {
        Call::Restart => {
            let begun = journal::restart(area);
            return say_answer(rt, begun.map(|counter| (counter.next, counter)), next);
        }
        Call::Number => return say_answer(rt, journal::next(Counter { next }, area), next),
        Call::Raise => say_raised(rt, journal::raise(area, script.third))?,
        Call::Cut => say_raised(
            rt,
            journal::raise_part(area, script.second, low_byte(script.third)),
        )?,
        Call::Taken => say_contents(rt, slots::read(area))?,
        Call::Slot => say_slot(rt, area, script.low_half())?,
        Call::Fill => say_number(rt, filled(area, script.low_half()) as u64)?,
    }
    Ok(next)
}

// What is left of the script behind a command.
fn performed(rt: &impl Print, bytes: &mut Bytes, script: Script) -> io::Result<Script> {
    let mut after = Script {
        letters: Letters::None,
        ..script
    };
    match script.letters.command() {
        Some(Command::Put) => fields::store_at(
            &mut bytes.now,
            script.first as usize,
            low_byte(script.second),
            script.third,
        ),
        Some(Command::Counter) => after.next = script.third,
        Some(Command::Size) => after.size = script.third as usize,
        Some(Command::Keep) => bytes.kept.copy_from_slice(&bytes.now),
        Some(Command::Changed) => {
            print!(rt; " ->")?;
            say_number(rt, u64::from(bytes.changed()))?;
        }
        Some(Command::Call(call)) => {
            print!(rt; " ->")?;
            let size = script.size.min(SPACE);
            after.next = called(rt, &mut bytes.now[..size], call, script)?;
        }
        None => print!(rt; " -> unknown")?,
    }
    Ok(after)
}

// One byte of the script, which is written behind what its command says.
fn turn(rt: &impl Print, bytes: &mut Bytes, script: Script, byte: u8) -> io::Result<Script> {
    let after = match byte {
        b':' => {
            *bytes = Bytes::fresh();
            Script::begun()
        }
        b';' | b'\n' => performed(rt, bytes, script)?,
        _ => script.with_byte(byte),
    };
    rt.write_all(&[byte])?;
    Ok(after)
}

fn play(rt: &impl Print, text: &[u8]) -> io::Result<()> {
    let mut bytes = Bytes::fresh();
    let mut script = Script::begun();
    for &byte in text {
        script = turn(rt, &mut bytes, script, byte)?;
    }
    Ok(())
}

// Bytes of a script beyond these are not read.
const LONGEST_SCRIPT: usize = 65536;

fn main(rt: HostRuntime) -> io::Result<()> {
    let mut text = [0u8; LONGEST_SCRIPT];
    let size = reading::read_full(&mut rt.reader(), &mut text)?;
    play(&rt, &text[..size])
}
