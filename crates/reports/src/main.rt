// Many reports (specification, 6.3): on standard input how many texts there are, their sizes and the texts, on standard output their reports.
#![tactic(auto)]

ghost use Rattle.std.specs.Prelude.{◌≡◌, ◌-◌, ◌≤◌, ◌<◌, IfOk, length};
ghost use Rattle.lines.specs.LinesInCode.{from, NumberFound};
ghost use Rattle.reporting.specs.Reporting.{Piece};
ghost use Rattle.reports.specs.Reports.{read_sizes};
ghost use Rattle.reports.specs.ReportsInCode.{SizeFound, summed, left_at, Framed, FrameFound};

use lines::{Ending, Number};
use reported::REPORT_BYTES;
use reporting::complain;
use std::io;
use std::io::{Stderr, Stdout};

// Room for 64 texts of 4,096 bytes.
const MOST_STREAM: usize = 262144;

// A size at a position, on a line of its own.
fn size_at(stream: &[u8], at: usize) -> Option<Number>
    requires { at ≤ length stream.now }
    ensures { SizeFound stream.now (from stream.now at) result }
{
    let found = lines::line(stream, at, Ending::Newline, 1);
    if found.count == 0 {
        return None;
    }
    Some(Number {
        value: found.entry(0),
        next: found.next,
    })
}

// What so many sizes make together, and the position behind them.
fn add_sizes(stream: &[u8], at: usize, texts: usize) -> Option<Number>
    requires { (at ≤ length stream.now) × (texts < 100000) }
    ensures { NumberFound stream.now (summed (read_sizes texts (from stream.now at))) result }
{
    let mut value = 0;
    let mut next = at;
    for k in 0..texts {
        let size = size_at(stream, next)?;
        value += size.value;
        next = size.next;
    }
    Some(Number { value, next })
}

// What is left of a stream: so many texts, the position of the next one's size, and that of the next one.
#[derive(Clone, Copy)]
struct Left {
    texts: usize,
    sizes: usize,
    at: usize,
}

// All of its texts; none where the sizes are no numbers or do not add up to what follows them.
fn find_frame(stream: &[u8]) -> Option<Left>
    ensures { FrameFound stream.now result }
{
    let count = size_at(stream, 0)?;
    let sizes = add_sizes(stream, count.next, count.value)?;
    if sizes.value != stream.len() - sizes.next {
        return None;
    }
    Some(Left {
        texts: count.value,
        sizes: count.next,
        at: sizes.next,
    })
}

// The report on the next text in the buffer: how many bytes it has, and what is left behind that text.
fn put_next(stream: &[u8], left: Left, out: &mut [u8; REPORT_BYTES]) -> (usize, Left)
    requires { Framed stream.now left × (0 < left.texts) }
    ensures { Piece (left_at stream.now left) (left_at stream.now result.1) out.old result.0 out.new × Framed stream.now result.1 × (result.1.texts ≡ left.texts - 1) }
{
    let size = size_at(stream, left.sizes).unwrap();
    let end = left.at + size.value;
    let bytes = reported::report(&stream[left.at..end], out);
    let behind = Left {
        texts: left.texts - 1,
        sizes: size.next,
        at: end,
    };
    (bytes, behind)
}

// Prints the report on the next text; what is left behind that text.
fn print_next(output: Stdout, stream: &[u8], left: Left) -> io::Result<Left>
    requires { Framed stream.now left × (0 < left.texts) }
    ensures { IfOk result (λ behind. Framed stream.now behind × (behind.texts ≡ left.texts - 1)) }
{
    let mut out = [0u8; REPORT_BYTES];
    let (bytes, behind) = put_next(stream, left, &mut out);
    output.write_all(&out[..bytes])?;
    Ok(behind)
}

// The reports on all texts that are left, one behind the other.
fn print_reports(output: Stdout, stream: &[u8], all: Left) -> io::Result<()>
    requires { Framed stream.now all }
{
    let mut left = all;
    while left.texts > 0 {
        left = print_next(output, stream, left)?;
    }
    Ok(())
}

// What is printed for a stream, on standard output.
fn print_stream(output: Stdout, errors: Stderr, stream: &[u8]) {
    let Some(texts) = find_frame(stream) else {
        complain(
            errors,
            b"reports: the sizes are no numbers, or do not add up to the texts\n",
        );
        return;
    };
    if print_reports(output, stream, texts).is_err() {
        complain(errors, b"reports: the reports were not written\n");
    }
}

// A buffer whose length is all that the prover looks at.
fn room_for_stream() -> [u8; MOST_STREAM]
    ensures { 262144 ≡ length result }
{
    [0u8; MOST_STREAM]
}

// A stream that fills the buffer may have more behind it: nothing is said of any of its texts.
fn main(rt: HostRuntime) {
    let errors = rt.stderr();
    let mut stream = room_for_stream();
    let Ok(bytes) = reporting::take_text_counted(rt.stdin(), &mut stream) else {
        complain(errors, b"reports: standard input was not read to its end\n");
        return;
    };
    if bytes == MOST_STREAM {
        complain(errors, b"reports: more than the program has room for\n");
        return;
    }
    print_stream(rt.stdout(), errors, &stream[..bytes]);
}
