// The writer of the binary form of a circuit's text (specification, 4.18). Every `put` answers the position behind the bytes that it writes.
#![tactic(auto)]

ghost use Rattle.std.specs.Prelude.{◌≡◌, ◌≤◌, ◌<◌, ◌+◌, length};
ghost use Rattle.circuit.specs.Answer.{answered, answer_or};
ghost use Rattle.putting.specs.PutInCode.{Put};
ghost use Rattle.writer.specs.WriterInCode.{RowThere};
ghost use Rattle.binary.specs.Difference.{groups};
ghost use Rattle.binary.specs.Binary.{row_bytes};
ghost use Rattle.binary.specs.Calls.{BinaryWriting};
ghost use Rattle.binary_writer.specs.BinaryWriterInCode.{Differ, SmallGate, both_bytes, LatchRow, Rows};

use circuit::{Counts, Refusal};
use text::LineKind;
use writer::{Form, LineNumbers};

// ---- gates

// A number in groups of seven bits, low group first, the top bit set on all but the last.
fn put_difference(text: &mut [u8], at: usize, n: usize) -> usize
    requires { (n < 16384) × (at + length (groups n) ≤ length text.old) }
    ensures { Put text.old at (groups n) text.new result }
{
    if n < 128 {
        text[at] = n as u8;
        return at + 1;
    }
    text[at] = (128 + n % 128) as u8;
    text[at + 1] = (n / 128) as u8;
    at + 2
}

// The own literal minus the larger operand, and the larger minus the smaller.
#[derive(Clone, Copy)]
struct GateDifferences {
    first: usize,
    second: usize,
}

// Operands are put larger first before writing.
fn gate_differences(own: usize, left: usize, right: usize) -> GateDifferences
    requires { (left < own) × (right < own) }
    ensures { Differ own left right result }
{
    if left < right {
        return GateDifferences {
            first: own - right,
            second: right - left,
        };
    }
    GateDifferences {
        first: own - left,
        second: left - right,
    }
}

fn put_gate(text: &mut [u8], at: usize, both: GateDifferences) -> usize
    requires { SmallGate both × (at + length (both_bytes both) ≤ length text.old) }
    ensures { Put text.old at (both_bytes both) text.new result }
{
    let behind = put_difference(text, at, both.first);
    put_difference(text, behind, both.second)
}

fn difference_length(n: usize) -> usize
    requires { n < 16384 }
    ensures { (result ≡ length (groups n)) × (result ≤ 2) }
{
    if n < 128 {
        return 1;
    }
    2
}

fn gate_length(both: GateDifferences) -> usize
    requires { SmallGate both }
    ensures { result ≡ length (both_bytes both) }
{
    difference_length(both.first) + difference_length(both.second)
}

// ---- rows

// A latch line does not show its own literal; a reset of 0 is left out.
fn latch_row(own: usize, next: usize, reset: usize) -> LineNumbers
    requires { (own < 10000) × (next < 10000) }
    ensures { LatchRow own next reset result }
{
    if reset == 0 {
        return LineNumbers::One(next);
    }
    LineNumbers::Two(next, writer::shown_reset(own, reset))
}

// What stands for a row: nothing for an input, a line for a latch or one literal, two differences for a gate.
#[derive(Clone, Copy)]
enum Row {
    Nothing,
    Line(LineNumbers),
    Differences(GateDifferences),
}

// The row of a kind whose words stand at word `at`.
fn row_of(kind: LineKind, own: usize, table: &[u16], at: usize) -> Row
    requires { RowThere kind own table.now at }
    ensures { Rows kind own table.now at result }
{
    match kind {
        LineKind::Input => Row::Nothing,
        LineKind::Latch => Row::Line(latch_row(own, table[at] as usize, table[at + 1] as usize)),
        LineKind::Lamp => Row::Line(LineNumbers::One(table[at] as usize)),
        LineKind::Gate => {
            Row::Differences(gate_differences(own, table[at] as usize, table[at + 1] as usize))
        }
    }
}

// The binary form.
struct Binary;

impl Form for Binary {
    ghost each = { row_bytes };

    fn row_length(kind: LineKind, own: usize, table: &[u16], at: usize) -> usize {
        match row_of(kind, own, table, at) {
            Row::Nothing => 0,
            Row::Line(line) => writer::line_length(line),
            Row::Differences(both) => gate_length(both),
        }
    }

    fn put_row(
        text: &mut [u8],
        end: usize,
        kind: LineKind,
        own: usize,
        table: &[u16],
        at: usize,
    ) -> usize {
        match row_of(kind, own, table, at) {
            Row::Nothing => end,
            Row::Line(line) => writer::put_line(text, end, line),
            Row::Differences(both) => put_gate(text, end, both),
        }
    }
}

pub fn write_binary(counts: Counts, table: &[u16], text: &mut [u8]) -> Result<usize, Refusal>
    ensures { BinaryWriting counts table.now text.old (answered result) (answer_or 0 result) text.new }
{
    writer::write_form::<Binary>(counts, table, text, &binary::MAGIC)
}
