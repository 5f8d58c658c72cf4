// The parts of a vector's line: the name of its call, numbers, lists of numbers, a text, with one space between them.
ghost use Rattle.std.specs.Prelude.{◌<◌, length, IfSome};

use crate::Complaint;
use crate::room::{Buffer, Bytes, Element, Words, within};
use circuit::Counts;

// What lies behind the parts that were read: nothing, or a space and the next part.
#[derive(Clone, Copy)]
pub struct Parts<'a> {
    rest: &'a [u8],
}

impl<'a> Parts<'a> {
    // The name that opens a line, and the parts behind it.
    pub fn of(line: &'a [u8]) -> (&'a [u8], Parts<'a>) {
        let mut parts = Parts { rest: line };
        let name = parts.word();
        (name, parts)
    }

    // Up to the next space, or to the end of the line.
    fn word(&mut self) -> &'a [u8] {
        let rest = self.rest;
        let end = rest
            .iter()
            .position(|byte| *byte == b' ')
            .unwrap_or(rest.len());
        self.rest = &rest[end..];
        &rest[..end]
    }

    // The word behind one more space.
    fn next(&mut self) -> Option<&'a [u8]> {
        self.rest = self.rest.strip_prefix(b" ")?;
        Some(self.word())
    }

    pub fn number(&mut self) -> Result<usize, Complaint> {
        self.next().and_then(number_of).ok_or(Complaint::NotAVector)
    }

    // How much of a buffer is lent.
    pub fn room<T, const N: usize>(&mut self, room: &mut Buffer<T, N>) -> Result<(), Complaint> {
        room.length = self.number()?;
        Ok(())
    }

    // As many elements as the number in front of them says. One that there is no room for is passed over; its vector is
    // too large.
    pub fn list<T: Element, const N: usize>(
        &mut self,
        list: &mut Buffer<T, N>,
    ) -> Result<(), Complaint> {
        let length = self.number()?;
        list.length = length;
        for i in 0..length {
            let element = T::from_number(self.number()?).ok_or(Complaint::NotAVector)?;
            if let Some(place) = list.elements.get_mut(i) {
                *place = element;
            }
        }
        Ok(())
    }

    // The counts, I L O A B C, and the table with its length in front of it.
    pub fn circuit(&mut self, table: &mut Words) -> Result<Counts, Complaint> {
        let counts = Counts {
            inputs: self.number()?,
            latches: self.number()?,
            lamps: self.number()?,
            gates: self.number()?,
            bads: self.number()?,
            constraints: self.number()?,
        };
        self.list(table)?;
        Ok(counts)
    }

    // The length of a text, and the text behind one more space, or no text where the line ends. What has no room there
    // is cut, and behind it is `x`.
    pub fn text(mut self, text: &mut Bytes) -> Result<(), Complaint> {
        text.length = self.number()?;
        let front = within(text.length, &text.elements);
        text.elements[..front].fill(b'x');
        if let Some(spelled) = self.rest.strip_prefix(b" ") {
            unspell(spelled, &mut text.elements).ok_or(Complaint::NotAVector)?;
        }
        Ok(())
    }

    // The line has nothing behind these parts.
    pub fn end(self) -> Result<(), Complaint> {
        if self.rest.is_empty() {
            Ok(())
        } else {
            Err(Complaint::NotAVector)
        }
    }
}

// A number has a first digit, and stays within 64 bits.
fn number_of(word: &[u8]) -> Option<usize> {
    if word.is_empty() {
        return None;
    }
    let mut number: usize = 0;
    for byte in word {
        number = number.checked_mul(10)?.checked_add(digit(*byte)?)?;
    }
    Some(number)
}

fn digit(byte: u8) -> Option<usize> {
    match byte {
        b'0'..=b'9' => Some(usize::from(byte - b'0')),
        _ => None,
    }
}

fn hex_digit(byte: u8) -> Option<u8> {
    match byte {
        b'0'..=b'9' => Some(byte - b'0'),
        b'a'..=b'f' => Some(byte - b'a' + 10),
        _ => None,
    }
}

// The byte that two hex digits spell.
fn hex_byte(high: u8, low: u8) -> Option<u8> {
    Some(hex_digit(high)? << 4 | hex_digit(low)?)
}

// The byte that is spelled at the front of a text, and the text behind it; none where nothing spells one.
fn first_byte(text: &[u8]) -> Option<(u8, &[u8])>
    ensures { IfSome result (λ found. length found.1.now < length text.now) }
{
    match text {
        [b'\\', high, low, behind @ ..] => Some((hex_byte(*high, *low)?, behind)),
        [b'\\', ..] => None,
        [b'/', behind @ ..] => Some((b'\n', behind)),
        [byte, behind @ ..] => Some((*byte, behind)),
        [] => None,
    }
}

// Puts the text that is spelled to the front of the buffer.
fn unspell(spelled: &[u8], buffer: &mut [u8]) -> Option<()> {
    let mut rest = spelled;
    let mut places = buffer.iter_mut();
    while !rest.is_empty() {
        let (byte, behind) = first_byte(rest)?;
        if let Some(place) = places.next() {
            *place = byte;
        }
        rest = behind;
    }
    Some(())
}
