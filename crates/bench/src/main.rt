// The bench circuits (specification, 9): each text is read and run by the code, and its line shows what came of it.
#![tactic(auto)]

use cubes::{Chain, ChainRefusal};
use std::io::Stdout;

const T: [u8; 20] = *b"aag 1 0 1 1 0\n2 3\n2\n";

const H: [u8; 28] = *b"aag 3 1 1 1 1\n2\n4 7\n4\n6 3 5\n";

const K: [u8; 24] = *b"aag 2 1 0 1 1\n2\n4\n4 2 3\n";

const S: [u8; 32] = *b"aag 3 0 2 1 1\n2 4\n4 2 1\n6\n6 4 2\n";

const E: [u8; 20] = *b"aag 1 0 1 1 0\n2 1\n2\n";

const C: [u8; 45] = *b"aag 5 0 2 1 3\n2 3\n4 11\n10\n6 4 3\n8 5 2\n10 9 7\n";

// A first latch without a start value.
const U: [u8; 26] = *b"aag 2 0 2 1 0\n2 0 2\n4 2\n4\n";

// What no call may touch keeps this byte.
const UNTOUCHED: u8 = 0xFF;

fn say(output: Stdout, text: &[u8]) {
    let _ = output.write_all(text);
}

// A name, and the number behind it.
fn say_number(output: Stdout, name: &[u8], number: u64) {
    say(output, name);
    let _ = output.print(number);
}

// A space, and the byte at a position in hex where the buffer has it.
fn say_byte(output: Stdout, bytes: &[u8], at: usize) {
    if at < bytes.len() {
        say(output, b" ");
        let byte = bytes[at];
        let _ = print!(output; "{byte:02x}");
    }
}

fn say_five(output: Stdout, bytes: &[u8]) {
    for at in 0..5 {
        say_byte(output, bytes, at);
    }
}

// What came of a text that nothing refuses: its chain, and how many latches are settled.
#[derive(Clone, Copy)]
struct Run {
    chain: Chain,
    settled: usize,
}

// Reads the text, runs its circuit and judges what the chain left; the refusal is that of the first call that refuses.
fn read_and_run(
    text: &[u8],
    w: usize,
    cubes: &mut [u8],
    verdict: &mut [u8],
    settled: &mut [u8],
) -> Result<Run, ChainRefusal> {
    let mut table = [0u16; 16];
    let counts = reader::read(text, &mut table)?;
    let chain = chained::chain(counts, &table, w, cubes)?;
    let n = chain.cubes;
    let j = chain.back;
    let settled = judged::judge(counts, &table, cubes, n, j, verdict, settled)?;
    Ok(Run { chain, settled })
}

// The answer, with n where there was no room for a cube more, the first five bytes of the cube buffer, and the first of the verdict and of the settled record.
fn say_line(
    output: Stdout,
    name: &[u8],
    w: usize,
    answer: Result<Run, ChainRefusal>,
    cubes: &[u8],
    verdict: &[u8],
    settled: &[u8],
) {
    let (number, n, j, s) = match answer {
        Ok(run) => (0, run.chain.cubes, run.chain.back, run.settled),
        Err(ChainRefusal::Refused(refusal)) => (refusal.number(), 0, 0, 0),
        Err(ChainRefusal::Full(full)) => (15, full.cubes, 0, 0),
    };
    say(output, name);
    say_number(output, b" w ", w as u64);
    say_number(output, b": number ", number as u64);
    say_number(output, b" n ", n as u64);
    say_number(output, b" j ", j as u64);
    say_number(output, b" s ", s as u64);
    say(output, b" cubes");
    say_five(output, cubes);
    say(output, b" verdict");
    say_byte(output, verdict, 0);
    say(output, b" settled");
    say_byte(output, settled, 0);
    say(output, b"\n");
}

// The line of a case with this cube buffer.
fn show(output: Stdout, name: &[u8], text: &[u8], w: usize, cubes: &mut [u8]) {
    let mut verdict = [UNTOUCHED; 2];
    let mut settled = [UNTOUCHED; 2];
    let answer = read_and_run(text, w, cubes, &mut verdict, &mut settled);
    say_line(output, name, w, answer, cubes, &verdict, &settled);
}

// A case whose cube buffer the document does not name.
fn ample(output: Stdout, name: &[u8], text: &[u8], w: usize) {
    let mut cubes = [UNTOUCHED; 100];
    show(output, name, text, w, &mut cubes);
}

fn one_byte(output: Stdout, name: &[u8], text: &[u8], w: usize) {
    let mut cubes = [UNTOUCHED; 1];
    show(output, name, text, w, &mut cubes);
}

fn main(rt: HostRuntime) {
    let output = rt.stdout();
    ample(output, b"T", &T, 0);
    ample(output, b"T", &T, 1);
    ample(output, b"H", &H, 0);
    ample(output, b"K", &K, 0);
    ample(output, b"S", &S, 0);
    ample(output, b"S", &S, 1);
    ample(output, b"E", &E, 0);
    ample(output, b"E", &E, 1);
    one_byte(output, b"E, one byte,", &E, 0);
    ample(output, b"C", &C, 0);
    ample(output, b"C", &C, 2);
    ample(output, b"C", &C, 3);
    ample(output, b"no counts", b"aag 0 0 0 0 0\n", 0);
    ample(output, b"no start value", b"aag 1 0 1 0 0\n2 2 2\n", 0);
    ample(output, b"U", &U, 0);
    ample(output, b"ends", b"aag 1 0 1 1 0 1 1\n2 1\n2\n3\n3\n", 0);
    ample(
        output,
        b"ends at once",
        b"aag 1 0 1 1 0 1 1\n2 1 1\n2\n3\n3\n",
        0,
    );
    ample(
        output,
        b"ends from any start",
        b"aag 1 0 1 1 0 1 1\n2 1 2\n2\n3\n3\n",
        0,
    );
    ample(
        output,
        b"unknown constraint",
        b"aag 1 0 1 1 0 0 1\n2 2 2\n2\n3\n",
        0,
    );
    ample(output, b"operand 4", b"aag 2 1 0 0 1\n2\n4 4 2\n", 0);
    ample(output, b"operand 6", b"aag 2 1 0 0 1\n2\n4 6 2\n", 0);
}
