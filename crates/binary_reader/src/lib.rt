// The reader of the binary form of a circuit's text (specification, 4.17).
#![tactic(auto)]

ghost use Rattle.std.specs.Prelude.{◌≡◌, [], ◌∷◌, ℕ, ◌≤◌, ◌<◌, ◌+◌, ◌*◌, length};
ghost use Rattle.std.proofs.lemmas.List.Edits.{sets};
ghost use Rattle.three.specs.Lists.{over};
ghost use Rattle.circuit.specs.Answer.{answered, answer_or};
ghost use Rattle.circuit.specs.RulesInCode.{Bounded};
ghost use Rattle.circuit.specs.Table.{top, gate, several, kinds};
ghost use Rattle.text.specs.Line.{newline};
ghost use Rattle.text.specs.KindsInCode.{coded};
ghost use Rattle.lines.specs.LinesInCode.{from, numbers_of};
ghost use Rattle.reader.specs.ReaderInCode.{LinesJudged, kinds_then, TextJudged, body_words, stand, Fillable, KindFillable, KindFilled};
ghost use Rattle.binary.specs.Difference.{read_difference};
ghost use Rattle.binary.specs.Gate.{read_gate};
ghost use Rattle.binary.specs.Binary.{binary_magic, read_gate_row, read_rows, circuit_rows};
ghost use Rattle.binary.specs.Calls.{BinaryReading};
ghost use Rattle.text.specs.Calls.{zeros};
ghost use Rattle.binary_reader.specs.BinaryReaderInCode.{DifferenceFound, GateFound, RowFound, HasLine};

use circuit::{Counts, Refusal};
use lines::{BODY_NUMBERS, Ending, MOST_NUMBERS, Number, ReadLine};
use reader::{Body, Form, MOST_TEXT, Place};
use text::LineKind;

// ---- a line

// A line's numbers with an own literal in front of them.
fn with_own(found: ReadLine, own: usize) -> ReadLine
    requires { found.count ≤ 3 }
    ensures { (numbers_of result ≡ own ∷ numbers_of found) × (result.next ≡ found.next) }
{
    let given = found.numbers;
    let mut numbers = [own; MOST_NUMBERS];
    numbers[1] = given[0];
    numbers[2] = given[1];
    numbers[3] = given[2];
    ReadLine {
        count: found.count + 1,
        numbers,
        next: found.next,
    }
}

// The lines of the binary form, in front of its gates.
#[derive(Clone, Copy)]
struct Rows;

impl Form for Rows {
    ghost reads = { λ form most. read_rows most };

    ghost has_line = { λ form kind. HasLine kind };

    // A latch line does not show its own literal.
    fn line(self, text: &[u8], at: usize, kind: LineKind, own: usize) -> ReadLine {
        let found = lines::line(text, at, Ending::Newline, BODY_NUMBERS);
        match kind {
            LineKind::Latch => with_own(found, own),
            _ => found,
        }
    }
}

// ---- a gate

// Groups of seven bits, low group first, the top bit set on all but the last.
fn difference(text: &[u8], at: usize) -> Option<Number>
    ensures { DifferenceFound text.now (read_difference (from text.now at)) result }
{
    if at >= text.len() {
        return None; // cut off
    }
    let low = text[at];
    if low < 128 {
        return Some(Number {
            value: low as usize,
            next: at + 1,
        });
    }
    if at + 1 >= text.len() {
        return None; // cut off behind its first group
    }
    let high = text[at + 1];
    if high == 0 {
        return None; // a needless zero group
    }
    if high >= 128 {
        return None; // longer than two bytes
    }
    Some(Number {
        value: (low - 128) as usize + high as usize * 128,
        next: at + 2,
    })
}

// The two differences of a gate, and the position behind them.
#[derive(Clone, Copy)]
struct ReadGate {
    first: usize,
    second: usize,
    next: usize,
}

// Both differences are read before either is judged.
fn gate_differences(text: &[u8], at: usize) -> Option<ReadGate>
    ensures { GateFound text.now (read_gate (from text.now at)) result }
{
    let first = difference(text, at)?;
    let second = difference(text, first.next)?;
    Some(ReadGate {
        first: first.value,
        second: second.value,
        next: second.next,
    })
}

// The operands of a gate, larger first, and the position behind the gate.
#[derive(Clone, Copy)]
struct GateRow {
    left: usize,
    right: usize,
    next: usize,
}

// 26, then 7.
fn gate_row(text: &[u8], at: usize, own: usize) -> Result<GateRow, Refusal>
    ensures { RowFound text.now own (read_gate_row own (from text.now at)) result }
{
    let Some(found) = gate_differences(text, at) else {
        return Err(Refusal::Difference);
    };
    if found.first == 0 {
        return Err(Refusal::OperandNotBelow);
    }
    if found.first > own {
        return Err(Refusal::OperandNotBelow);
    }
    let left = own - found.first;
    if found.second > left {
        return Err(Refusal::OperandNotBelow);
    }
    Ok(GateRow {
        left,
        right: left - found.second,
        next: found.next,
    })
}

// ---- the first pass

// Gate by gate, the first with the literal `own`; the position behind them.
fn judge_gates(text: &[u8], at: usize, own: usize, count: usize) -> Result<usize, Refusal>
    requires { (at ≤ length text.now) × (own + 2 * count ≤ 10000) }
    ensures { (most : ℕ) → LinesJudged (read_rows most) text.now at (several gate own count) result }
{
    let mut next = at;
    for i in 0..count {
        next = gate_row(text, next, own + 2 * i)?.next;
    }
    Ok(next)
}

// No input lines; a line for each latch, lamp, bad state and constraint, then the gates; the position behind them.
fn judge_rows(text: &[u8], at: usize, counts: Counts) -> Result<usize, Refusal>
    requires { Bounded counts × (at ≤ length text.now) }
    ensures { LinesJudged (read_rows (top counts)) text.now at (kinds_then counts) result }
{
    let most = counts.top();
    let lamps = reader::judge_lines(
        text,
        Rows,
        at,
        LineKind::Latch,
        counts.first_latch(),
        counts.latches,
        most,
    )?;
    let gates = reader::judge_lines(
        text,
        Rows,
        lamps,
        LineKind::Lamp,
        0,
        counts.literals(),
        most,
    )?;
    judge_gates(text, gates, counts.first_gate(), counts.gates)
}

// Reader: 1, 2, 3, line by line (4, 6, 8), gate by gate (26, then 7), 9: once over the text, and nothing is written.
fn judge(text: &[u8]) -> Result<Body, Refusal>
    ensures { TextJudged binary_magic newline circuit_rows text.now result }
{
    if text.len() > MOST_TEXT {
        return Err(Refusal::TextTooLong);
    }
    let first = reader::first_line(text, &binary::MAGIC, Ending::Newline);
    reader::header_refusal(first)?;
    let counts = reader::counts_of(first);
    let end = judge_rows(text, first.next, counts)?;
    if !reader::ended(text, end, Ending::Newline) {
        return Err(Refusal::Trailing);
    }
    Ok(Body {
        counts,
        at: first.next,
    })
}

// ---- the second pass

// The operands of a gate; the word behind them.
fn fill_gate(row: GateRow, table: &mut [u16], word: usize) -> usize
    requires { (row.left < 65536) × (row.right < 65536) × (word + 2 ≤ length table.old) }
    ensures { (table.new ≡ sets table.old word (row.left ∷ row.right ∷ [])) × (result ≡ word + 2) }
{
    let second = reader::fill_word(row.left, table, word);
    reader::fill_word(row.right, table, second)
}

// Gates, the first with the literal `own`; the place behind them.
fn fill_gates(text: &[u8], start: Place, own: usize, count: usize, table: &mut [u16]) -> Place
    requires { (own + 2 * count ≤ 10000) × KindFillable circuit_rows text.now gate own count start table.old }
    ensures { KindFilled circuit_rows text.now gate own count start table.old result table.new }
{
    let mut at = start.at;
    let mut word = start.word;
    for i in 0..count {
        let row = gate_row(text, at, own + 2 * i).unwrap();
        word = fill_gate(row, table, word);
        at = row.next;
    }
    Place { at, word }
}

// The words of rows that nothing refuses, into the front of the table.
fn fill(text: &[u8], at: usize, counts: Counts, table: &mut [u16])
    requires { Bounded counts × Fillable (circuit_rows counts) text.now (stand (kinds counts) at 0 table.old) }
    ensures { table.new ≡ over (body_words (circuit_rows counts) (kinds counts) (from text.now at)) table.old }
{
    let latches = Place { at, word: 0 };
    let lamps = reader::fill_lines(
        text,
        Rows,
        latches,
        LineKind::Latch,
        counts.first_latch(),
        counts.latches,
        table,
    );
    let gates = reader::fill_lines(
        text,
        Rows,
        lamps,
        LineKind::Lamp,
        0,
        counts.literals(),
        table,
    );
    fill_gates(text, gates, counts.first_gate(), counts.gates, table);
}

// ---- the call

// The text is judged as a whole before a word is stored.
pub fn read_binary(text: &[u8], table: &mut [u16]) -> Result<Counts, Refusal>
    ensures { BinaryReading text.now table.old (answered result) (answer_or zeros result) table.new }
{
    let body = judge(text)?;
    if table.len() < body.counts.table_length() {
        return Err(Refusal::TooShort);
    }
    fill(text, body.at, body.counts, table);
    Ok(body.counts)
}
