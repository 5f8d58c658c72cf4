// Room for what a vector gives and lends.
ghost use Rattle.std.specs.Prelude.{◌≡◌, ◌≤◌, length, IfOk};
ghost use Rattle.vectors.specs.Within.{Within};

use crate::Complaint;
use std::io::Stdout;

// What a buffer holds: bytes or words.
pub trait Element: Copy + PartialEq {
    // What a call leaves untouched shows these.
    const UNTOUCHED: Self;

    fn from_number(number: usize) -> Option<Self>;

    fn say(self, output: Stdout);
}

impl Element for u8 {
    const UNTOUCHED: u8 = 0xFF;

    fn from_number(number: usize) -> Option<u8> {
        u8::try_from(number).ok()
    }

    fn say(self, output: Stdout) {
        let _ = print!(output; "{self:02x}");
    }
}

impl Element for u16 {
    const UNTOUCHED: u16 = 0xFFFF;

    fn from_number(number: usize) -> Option<u16> {
        u16::try_from(number).ok()
    }

    fn say(self, output: Stdout) {
        let _ = print!(output; "{self}");
    }
}

// An array whose length is all that the prover looks at: it would go through a million elements one by one.
pub fn filled<T: Copy, const N: usize>(element: T) -> [T; N]
    ensures { N ≡ length result }
{
    [element; N]
}

// As many elements of a buffer as a vector says, and all where it has fewer.
pub fn within<T>(count: usize, buffer: &[T]) -> usize
    ensures room { Within result buffer.now }
    ensures said { result ≤ count }
    ensures all { count ≤ length buffer.now → result ≡ count }
{
    count.min(buffer.len())
}

// At most N elements, of which a vector gives or lends as many as it says at the front.
#[derive(Clone, Copy)]
pub struct Buffer<T, const N: usize> {
    pub(crate) elements: [T; N],
    pub length: usize,
}

// Beyond every length that the calls judge by.
pub type Bytes = Buffer<u8, 66_000>;

pub type Words = Buffer<u16, 8_192>;

impl<T: Element, const N: usize> Buffer<T, N> {
    // Nothing is given or lent of it until a part says how much.
    pub fn new() -> Self
        ensures { result.length ≡ 0 }
    {
        Buffer {
            elements: filled(T::UNTOUCHED),
            length: 0,
        }
    }
}

impl<T: Copy, const N: usize> Buffer<T, N> {
    pub fn given(&self) -> Result<&[T], Complaint>
        ensures { IfOk result (λ front. length front.now ≡ self.now.length) }
    {
        let front = within(self.length, &self.elements);
        if front < self.length {
            return Err(Complaint::TooLarge);
        }
        Ok(&self.elements[..front])
    }

    pub fn lent(&mut self) -> Result<&mut [T], Complaint>
        ensures { IfOk result (λ front. length front.now ≡ self.old.length) }
    {
        let front = within(self.length, &self.elements);
        if front < self.length {
            return Err(Complaint::TooLarge);
        }
        Ok(&mut self.elements[..front])
    }
}
