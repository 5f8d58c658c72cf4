// What the programs that replay stored vectors share: the list on standard input, the parts of its lines, room for what
// a vector gives and lends, and the lines of answers.
//
// A list, w.. or b.., has its length in front of it. Each buffer that is lent has 0xFF in every byte. In an answer equal
// elements that follow each other are value*count, bytes in hex and words in decimal, and `-` is a buffer of length 0.
// A comment is its own line.
#![tactic(auto)]

pub mod parts;
pub mod room;
pub mod say;

ghost use Rattle.vectors.specs.Within.{Within};

use parts::Parts;
use say::{Answer, say};
use std::io::{Read, Stdin, Stdout};

// The whole list; harness/answers.c has the same limit.
const MOST_LIST: usize = 1_048_576;

// Why a line of the list is not replayed.
#[derive(Clone, Copy)]
pub enum Complaint {
    NotAVector,
    TooLarge,
}

impl Complaint {
    fn say(self, output: Stdout) {
        match self {
            Complaint::NotAVector => say(output, b"not a vector\n"),
            Complaint::TooLarge => say(output, b"too large\n"),
        }
    }
}

// ---- the list

// Until the buffer is full, the input ends or a read fails.
fn read_full(mut input: Stdin, list: &mut [u8]) -> usize
    ensures { Within result list.new }
{
    let mut done = 0;
    while done < list.len() {
        match input.read(&mut list[done..]) {
            Ok(0) | Err(_) => break,
            Ok(got) => done += got,
        }
    }
    done
}

// A list that fills the buffer may have more behind it, so it is not replayed in part. The simulator answers no list
// with this line: it stands in no stored list of answers.
pub fn take_list(input: Stdin, output: Stdout, list: &mut [u8]) -> usize
    ensures { Within result list.new }
{
    let got = read_full(input, list);
    if got < list.len() {
        return got;
    }
    say(
        output,
        b"the whole list is too large: nothing was replayed\n",
    );
    0
}

// The line of a vector's answer, or of its complaint.
fn replay_line<F: Fn(Answer, Parts) -> Result<(), Complaint>>(
    output: Stdout,
    line: &[u8],
    answer: &F,
)
    requires { F.IsAlwaysCallable answer.now }
{
    if line.starts_with(b"#") {
        say(output, line);
        say(output, b"\n");
        return;
    }
    let (name, parts) = Parts::of(line);
    if let Err(complaint) = answer(Answer { output, name }, parts) {
        complaint.say(output);
    }
}

pub fn replay<F: Fn(Answer, Parts) -> Result<(), Complaint>>(rt: HostRuntime, answer: F)
    requires { F.IsAlwaysCallable answer }
{
    let output = rt.stdout();
    let mut list = room::filled::<u8, MOST_LIST>(0);
    let got = take_list(rt.stdin(), output, &mut list);
    for line in list[..got].split_inclusive(|byte| *byte == b'\n') {
        replay_line(output, line.strip_suffix(b"\n").unwrap_or(line), &answer);
    }
}
