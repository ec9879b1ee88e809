#![tactic(auto)]

ghost use Rattle.std.specs.Prelude.{◌≡◌, ◌+◌, ◌*◌, ◌<◌, ◌≤◌, length};
ghost use Rattle.lines.specs.Lines.{digit_of, decimal_of, hex_of, word_of, long_text};
ghost use Rattle.lines.specs.Reasons.{reason_of, EndingsSaid};
ghost use Rattle.lines.specs.Stores.{line_for, lines_for, text_for, Stored, Printed};

use trace::Ending;

// Why the player stopped.
#[derive(Clone, Copy, PartialEq, Eq)]
pub enum Reason {
    End,
    Limit,
    Torn,
    Bad,
}

impl From<Ending> for Reason {
    ghost from_gives = { λ ending reason. reason ≡ reason_of ending };

    fn from(ending: Ending) -> Reason {
        match ending {
            Ending::End => Reason::End,
            Ending::Torn => Reason::Torn,
            Ending::Bad => Reason::Bad,
        }
    }
}

impl Reason {
    fn word(self) -> &'static [u8]
        ensures { result.now ≡ word_of self }
    {
        match self {
            Reason::End => b"end\n",
            Reason::Limit => b"limit\n",
            Reason::Torn => b"torn\n",
            Reason::Bad => b"bad\n",
        }
    }
}

fn digit(d: u8) -> u8
    requires { d < 16 }
    ensures { result ≡ digit_of d }
{
    if d < 10 { b'0' + d } else { b'a' + (d - 10) }
}

fn hex(value: u32) -> [u8; 8]
    ensures { result ≡ hex_of 8 value }
{
    let mut digits = [0u8; 8];
    let mut left = value;
    for i in (0..8).rev() {
        digits[i] = digit((left % 16) as u8);
        left /= 16;
    }
    digits
}

// Each `put` function stores a text from a place on, and says where it ends. Digits are made by hand, since write! promises nothing of when it
// fails, and here there is no error to hand on.
fn put(out: &mut [u8], at: usize, text: &[u8]) -> usize
    requires { at + length text.now ≤ length out.old }
    ensures { Stored text.now at result out.old out.new }
{
    let end = at + text.len();
    out[at..end].copy_from_slice(text);
    end
}

fn put_decimal(out: &mut [u8], at: usize, n: u8) -> usize
    requires { at + 3 ≤ length out.old }
    ensures stored { Stored (decimal_of 3 n) at result out.old out.new }
    ensures near { result ≤ at + 3 }
{
    match n {
        0..=9 => put(out, at, &[digit(n)]),
        10..=99 => put(out, at, &[digit(n / 10), digit(n % 10)]),
        _ => put(
            out,
            at,
            &[digit(n / 100), digit(n / 10 % 10), digit(n % 10)],
        ),
    }
}

fn put_line(out: &mut [u8], at: usize, event: u64) -> usize
    requires { at + 13 ≤ length out.old }
    ensures stored { Stored (line_for event) at result out.old out.new }
    ensures near { result ≤ at + 13 }
{
    let gap = put_decimal(out, at, events::number_in(event));
    let value = put(out, gap, b" ");
    let end = put(out, value, &hex(events::value_in(event)));
    put(out, end, b"\n")
}

fn put_lines(out: &mut [u8], events: &[u64]) -> usize
    requires { (length events.now ≤ 10000) × (13 * length events.now ≤ length out.old) }
    ensures stored { Stored (lines_for events.now) 0 result out.old out.new }
    ensures near { result ≤ 13 * length events.now }
{
    let mut at = 0;
    for &event in events {
        at = put_line(out, at, event);
    }
    at
}

// The text of the log's first events, as many as count says, but at most 10,000, and of the reason. The result is its size.
pub fn write(events: &[u64; 10000], count: usize, reason: Reason, out: &mut [u8; 130006]) -> usize
    ensures { Printed (text_for events.now count reason) result out.old out.new }
{
    let at = put_lines(out, &events[..count.min(10000)]);
    put(out, at, reason.word())
}

// The text for an input that is too long.
pub fn write_long(out: &mut [u8; 130006]) -> usize
    ensures { Printed long_text result out.old out.new }
{
    put(out, 0, b"long\n")
}

// No code of the model: it holds the gate to what is said of each ending.
fn endings()
    ensures { EndingsSaid }
{}
