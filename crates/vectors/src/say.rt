// The lines of answers: numbers, and the elements of a buffer with equal ones that follow each other as value*count.
use crate::room::Element;
use circuit::{Counts, Refusal};
use std::io::Stdout;

pub fn say(output: Stdout, text: &[u8]) {
    let _ = output.write_all(text);
}

// What stands beside a refusal.
const NO_COUNTS: Counts = Counts {
    inputs: 0,
    latches: 0,
    lamps: 0,
    gates: 0,
    bads: 0,
    constraints: 0,
};

// Where the line of an answer goes, and the name of its call.
#[derive(Clone, Copy)]
pub struct Answer<'a> {
    pub output: Stdout,
    pub name: &'a [u8],
}

impl Answer<'_> {
    // The call's name, and the number that it answered.
    pub fn opens(self, number: u32) {
        say(self.output, self.name);
        self.number("number", number as usize);
    }

    // The same by its refusal.
    pub fn refused(self, refusal: Option<Refusal>) {
        self.opens(refusal.map_or(0, Refusal::number));
    }

    pub fn number(self, name: &str, number: usize) {
        let _ = print!(self.output; " {name} {number}");
    }

    pub fn counts(self, counts: Option<Counts>) {
        let counts = counts.unwrap_or(NO_COUNTS);
        self.number("I", counts.inputs);
        self.number("L", counts.latches);
        self.number("O", counts.lamps);
        self.number("A", counts.gates);
        self.number("B", counts.bads);
        self.number("C", counts.constraints);
    }

    // A buffer of length 0 has no element to show.
    pub fn elements<T: Element>(self, name: &str, elements: &[T]) {
        let _ = print!(self.output; "; {name}");
        if elements.is_empty() {
            say(self.output, b" -");
        }
        for run in elements.chunk_by(|a, b| a == b) {
            self.run(run[0], run.len());
        }
    }

    fn run<T: Element>(self, element: T, times: usize) {
        say(self.output, b" ");
        element.say(self.output);
        if times > 1 {
            let _ = print!(self.output; "*{times}");
        }
    }

    pub fn ends(self) {
        say(self.output, b"\n");
    }
}
