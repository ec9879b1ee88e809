// What the programs of both editions do: each is a main that names its edition.
#![tactic(auto)]

ghost use Rattle.std.specs.Prelude.{◌≤◌, length, IfOk, IfSome, OnErr};
ghost use Rattle.programs.specs.Programs.{Shows, Shown, ShowsAtMost};

use settings::Edition;
use std::env::{Env, FillError};
use std::io::{Read, Write};
use std::rt::Files;
use std::{fs, io, str};

fn print(
    rt: &impl Print,
    edition: Edition,
    input: &[u8],
    out: &mut [u8; 130006],
) -> io::Result<usize>
    requires { length input.now ≤ 65537 }
    ensures ok { IfOk result (λ size. Shows edition size out.old out.new) }
    ensures err { OnErr result (ShowsAtMost edition out.old out.new) }
{
    let size = player::output(edition, input, out);
    let text: &[u8] = out;
    rt.write_all(&text[..size])?;
    Ok(size)
}

// Plays a trace from a reader and prints its text, which is left in the lent buffer. The result is the text's size.
#[tactic(auto, using(crate::specs::Programs::nothing))]
pub fn show<R: Read>(
    rt: &impl Print,
    edition: Edition,
    from: &mut R,
    out: &mut [u8; 130006],
) -> io::Result<usize>
    ensures ok { IfOk result (λ size. Shows edition size out.old out.new) }
    ensures err { OnErr result (ShowsAtMost edition out.old out.new) }
{
    let mut input = [0u8; 65537]; // one byte more than is taken, so that a longer input is seen
    let n = reading::read_full(from, &mut input)?;
    print(rt, edition, &input[..n], out)
}

// An argument, in the buffer that is lent for it; none where there is no such argument. One that is longer than the buffer counts as empty.
fn argument<'a>(rt: &impl Env, i: usize, buf: &'a mut [u8]) -> Option<&'a [u8]>
    ensures { IfSome result (λ text. length text.now ≤ length buf.old) }
{
    match rt.arg(i, buf) {
        Ok(n) => Some(&buf[..n]),
        Err(FillError::TooLong) => Some(&[]),
        Err(FillError::NotPresent) => None,
    }
}

// Opens a file by its name. A name that is no text can't be opened.
fn open<R: Files>(rt: &R, name: &[u8]) -> io::Result<R::File> {
    match str::from_utf8(name) {
        Ok(name) => fs::open(rt, name),
        Err(_) => Err(io::Error::from(io::ErrorKind::InvalidFilename)),
    }
}

// Says on standard error why a file can't be opened, in the system's words and without its number for them.
fn say_why(rt: &impl Eprint, name: &[u8], error: io::Error) -> io::Result<()> {
    for part in name.utf8_chunks() {
        let text = part.valid();
        let other = if part.invalid().is_empty() {
            ""
        } else {
            "\u{fffd}"
        };
        eprint!(rt; "{text}{other}")?;
    }
    let mut text = [0u8; 256];
    let mut rest = io::Cursor::new(&mut text[..]);
    write!(rest, "{error}")?;
    let size = rest.position().min(256) as usize;
    let text = str::from_utf8(&text[..size]).unwrap_or("");
    let (why, _) = text.split_once(" (os error ").unwrap_or((text, ""));
    eprintln!(rt; ": {why}")
}

// Prints the name of a file and opens it. Nothing where it can't be opened, and standard error says why.
fn open_case<R: Files + Print + Eprint>(rt: &R, name: &[u8]) -> io::Result<Option<R::File>> {
    rt.write_all(b"== ")?;
    rt.write_all(name)?;
    rt.write_all(b"\n")?;
    match open(rt, name) {
        Ok(trace) => Ok(Some(trace)),
        Err(error) => {
            say_why(rt, name, error)?;
            Ok(None)
        }
    }
}

#[tactic(auto, using(crate::specs::Programs::none, crate::specs::Programs::one, crate::proofs::Showing::shown_at_most))]
fn show_case<R: Files + Print + Eprint>(
    rt: &R,
    edition: Edition,
    name: &[u8],
    out: &mut [u8; 130006],
) -> io::Result<()>
    ensures { Shown edition out.old out.new }
{
    let Some(mut trace) = open_case(rt, name)? else {
        return Ok(());
    };
    show(rt, edition, &mut trace, out)?;
    Ok(())
}

// For each trace file that an argument names, prints its name and then its text.
#[tactic(auto, using(crate::specs::Programs::none, crate::specs::Programs::then))]
pub fn show_cases<R: Env + Files + Print + Eprint>(
    rt: &R,
    edition: Edition,
    out: &mut [u8; 130006],
) -> io::Result<()>
    ensures { Shown edition out.old out.new }
{
    for i in 1..usize::MAX {
        let mut name = [0u8; 4096]; // the longest path, and one byte more
        let Some(name) = argument(rt, i, &mut name) else {
            break;
        };
        show_case(rt, edition, name, out)?;
    }
    Ok(())
}
