// Numbers and lines of a text (specification, 4.1 and 4.2).
#![tactic(auto)]

ghost use Rattle.std.specs.Prelude.{◌≡◌, List, ℕ, ◌≤◌, length};
ghost use Rattle.text.specs.Decimal.{may_grow, read_number};
ghost use Rattle.text.specs.Line.{split_line};
ghost use Rattle.text.specs.Part.{ill};
ghost use Rattle.lines.specs.ShapeInCode.{most_numbers};
ghost use Rattle.lines.specs.LinesInCode.{from, leading, NumberFound, ending_bytes, first_byte, lead_bytes, EndingAt, FoundInLine, LineFound};

mod read_line;

pub use read_line::{MOST_NUMBERS, ReadLine};

// A line of the body has at most three numbers.
pub const BODY_NUMBERS: usize = 3;

// A number, and the position behind it.
#[derive(Clone, Copy)]
pub struct Number {
    pub value: usize,
    pub next: usize,
}

// What ends the lines of a text.
#[derive(Clone, Copy, Debug, PartialEq, Eq)]
pub enum Ending {
    Newline,
    OfficeNewline,
}

// A number with what stands behind it, the line's ending or a space, and the position behind that.
#[derive(Clone, Copy)]
pub enum InLine {
    Last(Number),
    More(Number),
}

impl Ending {
    fn first_byte(self) -> u8
        ensures { result ≡ first_byte self }
    {
        match self {
            Ending::Newline => b'\n',
            Ending::OfficeNewline => b'\r',
        }
    }

    // How many bytes stand in front of its byte 10.
    fn lead(self) -> usize
        ensures { result ≡ lead_bytes self }
    {
        match self {
            Ending::Newline => 0,
            Ending::OfficeNewline => 1,
        }
    }
}

// The digit at a position.
fn digit_at(text: &[u8], at: usize) -> Option<usize>
    ensures { result ≡ leading (from text.now at) }
{
    let byte = *text.get(at)?;
    if !byte.is_ascii_digit() {
        return None;
    }
    Some(usize::from(byte - b'0'))
}

// One to five digits and no leading zero except `0` itself: another digit may follow.
fn may_grow(value: usize) -> bool
    ensures { result ≡ may_grow value }
{
    if value == 0 {
        return false;
    }
    value < 10000
}

fn read_number(text: &[u8], at: usize) -> Option<Number>
    ensures { NumberFound text.now (read_number (from text.now at)) result }
{
    let mut value = digit_at(text, at)?;
    let mut next = at + 1;
    while let Some(&byte) = text.get(next) {
        if !byte.is_ascii_digit() {
            break;
        }
        if !may_grow(value) {
            return None;
        }
        value = value * 10 + usize::from(byte - b'0');
        next += 1;
    }
    Some(Number { value, next })
}

// The position behind the ending of a line, where there is one at a position. Both endings take the same way, so that a line
// of either is read by one loop; byte by byte, since a comparison of slices takes a fifth to a half more of a whole reader's time.
pub fn ending_at(text: &[u8], at: usize, ending: Ending) -> Option<usize>
    requires { at ≤ length text.now }
    ensures { EndingAt (ending_bytes ending) text.now at result }
{
    let before = ending.lead();
    if text.len() - at <= before {
        return None;
    }
    if text[at] != ending.first_byte() {
        return None; // also for byte 10 alone
    }
    if text[at + before] != b'\n' {
        return None; // a lone 13
    }
    Some(at + before + 1)
}

// One space between.
fn number_in_line(text: &[u8], at: usize, ending: Ending) -> Option<InLine>
    ensures { FoundInLine (ending_bytes ending) text.now (from text.now at) result }
{
    let found = read_number(text, at)?;
    if let Some(next) = ending_at(text, found.next, ending) {
        return Some(InLine::Last(Number {
            value: found.value,
            next,
        }));
    }
    if found.next >= text.len() {
        return None; // a line without its end
    }
    if text[found.next] == b' ' {
        return Some(InLine::More(Number {
            value: found.value,
            next: found.next + 1,
        }));
    }
    None
}

// An ill-formed line, at a position of any text.
pub fn no_line(at: usize) -> ReadLine
    ensures { (text : List ℕ) → at ≤ length text → LineFound text ill result }
{
    ReadLine {
        count: 0,
        numbers: [0usize; MOST_NUMBERS],
        next: at,
    }
}

pub fn line(text: &[u8], at: usize, ending: Ending, most: usize) -> ReadLine
    requires { (at ≤ length text.now) × (most ≤ most_numbers) }
    ensures { LineFound text.now (split_line (ending_bytes ending) most (from text.now at)) result }
{
    let mut numbers = [0usize; MOST_NUMBERS];
    let mut next = at;
    for k in 0..most {
        match number_in_line(text, next, ending) {
            Some(InLine::Last(number)) => {
                numbers[k] = number.value;
                return ReadLine {
                    count: k + 1,
                    numbers,
                    next: number.next,
                };
            }
            Some(InLine::More(number)) => {
                numbers[k] = number.value;
                next = number.next;
            }
            None => {
                return no_line(at);
            }
        }
    }
    no_line(at)
}
