// The writer of a circuit's text in either form (specification, 4.10 and 4.18). Every `put` answers the position behind the bytes that it writes.
#![tactic(auto)]

ghost use Rattle.std.specs.Prelude.{◌≡◌, List, ℕ, ◌≤◌, ◌<◌, ◌+◌, ◌*◌, length, drop, ◌++◌, [], ◌∷◌};
ghost use Rattle.circuit.specs.Answer.{answered, answer_or};
ghost use Rattle.circuit.specs.Refusal.{refusal};
ghost use Rattle.circuit.specs.RulesInCode.{Bounded};
ghost use Rattle.circuit.specs.Table.{Kind, kinds, circuit_tests};
ghost use Rattle.text.specs.Decimal.{decimal};
ghost use Rattle.text.specs.Line.{line_text};
ghost use Rattle.text.specs.Text.{head_numbers, shown, line_of, write_rows, write_opened};
ghost use Rattle.text.specs.Calls.{WrittenBy, Writing};
ghost use Rattle.text.specs.KindsInCode.{coded};
ghost use Rattle.putting.specs.PutInCode.{Put};
ghost use Rattle.writer.specs.WriterInCode.{line_numbers, count_numbers, LastCounts, Small, RowThere, LatchLine, Shows, rows_of, block, Lines, Writable};

use circuit::{Counts, Refusal};
use text::{LineKind, MAGIC};

// The four bytes that a file opens with.
fn put_magic(text: &mut [u8], magic: &[u8; 4]) -> usize
    requires { 4 ≤ length text.old }
    ensures { Put text.old 0 magic.now text.new result }
{
    text[..4].copy_from_slice(magic);
    4
}

// The numbers of a line.
#[derive(Clone, Copy)]
pub enum LineNumbers {
    One(usize),
    Two(usize, usize),
    Three(usize, usize, usize),
}

pub fn put_line(text: &mut [u8], at: usize, line: LineNumbers) -> usize
    requires { Small line × (at + length (line_text (line_numbers line)) ≤ length text.old) }
    ensures { Put text.old at (line_text (line_numbers line)) text.new result }
{
    match line {
        LineNumbers::One(first) => putting::put_word(text, at, first, 10),
        LineNumbers::Two(first, second) => {
            let behind = putting::put_word(text, at, first, 32);
            putting::put_word(text, behind, second, 10)
        }
        LineNumbers::Three(first, second, third) => {
            let behind = putting::put_word(text, at, first, 32);
            let last = putting::put_word(text, behind, second, 32);
            putting::put_word(text, last, third, 10)
        }
    }
}

// The number that stands for a reset of 1, or for no start value.
pub fn shown_reset(own: usize, reset: usize) -> usize
    requires { (own < 10000) × (0 < reset) }
    ensures { (result < 10000) × (shown own reset ≡ result ∷ []) }
{
    if reset == 1 {
        return 1;
    }
    own
}

// A reset of 0 is left out.
fn latch_line(own: usize, next: usize, reset: usize) -> LineNumbers
    requires { (own < 10000) × (next < 10000) × (reset < 10000) }
    ensures { LatchLine own next reset result }
{
    if reset == 0 {
        return LineNumbers::Two(own, next);
    }
    LineNumbers::Three(own, next, shown_reset(own, reset))
}

// A form of the text, by what it has for the row of a kind whose words stand at word `at`: how many bytes, and the bytes.
pub trait Form {
    ghost each: { Kind → List ℕ → List ℕ };

    fn row_length(kind: LineKind, own: usize, table: &[u16], at: usize) -> usize
        requires { RowThere kind own table.now at }
        ensures { result ≡ length (each (coded kind own) (drop at table.now)) };

    fn put_row(
        text: &mut [u8],
        end: usize,
        kind: LineKind,
        own: usize,
        table: &[u16],
        at: usize,
    ) -> usize
        requires { RowThere kind own table.now at × (end + length (each (coded kind own) (drop at table.now)) ≤ length text.old) }
        ensures { Put text.old end (each (coded kind own) (drop at table.now)) text.new result };
}

// The text, where each row is a line.
struct Plain;

impl Form for Plain {
    ghost each = { line_of };

    fn row_length(kind: LineKind, own: usize, table: &[u16], at: usize) -> usize {
        line_length(written_line(kind, own, table, at))
    }

    fn put_row(
        text: &mut [u8],
        end: usize,
        kind: LineKind,
        own: usize,
        table: &[u16],
        at: usize,
    ) -> usize {
        put_line(text, end, written_line(kind, own, table, at))
    }
}

// The line of a kind whose words stand at word `at`.
fn written_line(kind: LineKind, own: usize, table: &[u16], at: usize) -> LineNumbers
    requires { RowThere kind own table.now at }
    ensures { Shows line_of kind own table.now at result }
{
    match kind {
        LineKind::Input => LineNumbers::One(own),
        LineKind::Latch => latch_line(own, table[at] as usize, table[at + 1] as usize),
        LineKind::Lamp => LineNumbers::One(table[at] as usize),
        LineKind::Gate => { LineNumbers::Three(own, table[at] as usize, table[at + 1] as usize) }
    }
}

// The rows of one kind, the first with the literal `own` and its words at word `at`.
#[derive(Clone, Copy)]
struct Rows {
    kind: LineKind,
    own: usize,
    count: usize,
    at: usize,
}

fn rows_of(counts: Counts, kind: LineKind) -> Rows
    requires { Bounded counts }
    ensures { result ≡ rows_of counts kind }
{
    match kind {
        LineKind::Input => Rows {
            kind,
            own: 2,
            count: counts.inputs,
            at: 0,
        },
        LineKind::Latch => Rows {
            kind,
            own: counts.first_latch(),
            count: counts.latches,
            at: 0,
        },
        LineKind::Lamp => Rows {
            kind,
            own: 0,
            count: counts.literals(),
            at: counts.literals_at(),
        },
        LineKind::Gate => Rows {
            kind,
            own: counts.first_gate(),
            count: counts.gates,
            at: counts.gates_at(),
        },
    }
}

#[inline(always)] // a kind of row is known in each call: write_binary takes a quarter less time
fn put_rows<F: Form>(text: &mut [u8], start: usize, rows: Rows, table: &[u16]) -> usize
    requires { Lines rows table.now × (start + length (block F.each rows table.now) ≤ length text.old) }
    ensures { Put text.old start (block F.each rows table.now) text.new result }
{
    let wide = rows.kind.words();
    let mut end = start;
    for i in 0..rows.count {
        let own = rows.own + 2 * i;
        end = F::put_row(text, end, rows.kind, own, table, rows.at + i * wide);
    }
    end
}

// A, then B and C up to the last that is not 0.
fn last_counts(counts: Counts) -> LineNumbers
    requires { Bounded counts }
    ensures { LastCounts counts result }
{
    if counts.constraints != 0 {
        return LineNumbers::Three(counts.gates, counts.bads, counts.constraints);
    }
    if counts.bads != 0 {
        return LineNumbers::Two(counts.gates, counts.bads);
    }
    LineNumbers::One(counts.gates)
}

// I L O A, B and C where they are written, and the newline.
fn put_counts(text: &mut [u8], at: usize, counts: Counts) -> usize
    requires { Bounded counts × (at + length (line_text (count_numbers counts)) ≤ length text.old) }
    ensures { Put text.old at (line_text (count_numbers counts)) text.new result }
{
    let last = last_counts(counts);
    let latches = putting::put_word(text, at, counts.inputs, 32);
    let lamps = putting::put_word(text, latches, counts.latches, 32);
    let gates = putting::put_word(text, lamps, counts.lamps, 32);
    put_line(text, gates, last)
}

// Then M, the counts and a newline.
fn put_first_line(text: &mut [u8], magic: &[u8; 4], counts: Counts) -> usize
    requires { Bounded counts × (4 + length (line_text (head_numbers counts)) ≤ length text.old) }
    ensures { Put text.old 0 (magic.now ++ line_text (head_numbers counts)) text.new result }
{
    let variables = put_magic(text, magic);
    let inputs = putting::put_word(text, variables, counts.variables(), 32);
    put_counts(text, inputs, counts)
}

// Then the rows of each input, latch, lamp, bad state, constraint and gate, in that order.
fn put_text<F: Form>(text: &mut [u8], magic: &[u8; 4], counts: Counts, table: &[u16]) -> usize
    requires { Writable counts table.now × (length (write_opened magic.now F.each counts table.now) ≤ length text.old) }
    ensures { Put text.old 0 (write_opened magic.now F.each counts table.now) text.new result }
{
    let inputs = put_first_line(text, magic, counts);
    let latches = put_rows::<F>(text, inputs, rows_of(counts, LineKind::Input), table);
    let lamps = put_rows::<F>(text, latches, rows_of(counts, LineKind::Latch), table);
    let gates = put_rows::<F>(text, lamps, rows_of(counts, LineKind::Lamp), table);
    put_rows::<F>(text, gates, rows_of(counts, LineKind::Gate), table)
}

// ---- the same, counted before the first byte is written

fn digits(n: usize) -> usize
    requires { n < 10000 }
    ensures { (result ≡ length (decimal n)) × (result ≤ 4) }
{
    if n < 10 {
        return 1;
    }
    if n < 100 {
        return 2;
    }
    if n < 1000 {
        return 3;
    }
    4
}

pub fn line_length(line: LineNumbers) -> usize
    requires { Small line }
    ensures { result ≡ length (line_text (line_numbers line)) }
{
    match line {
        LineNumbers::One(first) => digits(first) + 1,
        LineNumbers::Two(first, second) => digits(first) + digits(second) + 2,
        LineNumbers::Three(first, second, third) => {
            digits(first) + digits(second) + digits(third) + 3
        }
    }
}

#[inline(always)] // a kind of row is known in each call: write_binary takes a quarter less time
fn count_rows<F: Form>(start: usize, rows: Rows, table: &[u16]) -> usize
    requires { Lines rows table.now × (start + length (block F.each rows table.now) ≤ 60000) }
    ensures { result ≡ start + length (block F.each rows table.now) }
{
    let wide = rows.kind.words();
    let mut end = start;
    for i in 0..rows.count {
        let own = rows.own + 2 * i;
        end += F::row_length(rows.kind, own, table, rows.at + i * wide);
    }
    end
}

// The four bytes, the numbers, and a byte behind each.
fn header_length(counts: Counts) -> usize
    requires { Bounded counts }
    ensures { result ≡ 4 + length (line_text (head_numbers counts)) }
{
    let variables = digits(counts.variables());
    let inputs = digits(counts.inputs);
    let latches = digits(counts.latches);
    let lamps = digits(counts.lamps);
    8 + variables + inputs + latches + lamps + line_length(last_counts(counts))
}

fn text_length<F: Form>(counts: Counts, table: &[u16]) -> usize
    requires { Writable counts table.now × (4 + length (line_text (head_numbers counts)) + length (write_rows F.each (kinds counts) table.now) ≤ 60000) }
    ensures { result ≡ 4 + length (line_text (head_numbers counts)) + length (write_rows F.each (kinds counts) table.now) }
{
    let inputs = header_length(counts);
    let latches = count_rows::<F>(inputs, rows_of(counts, LineKind::Input), table);
    let lamps = count_rows::<F>(latches, rows_of(counts, LineKind::Latch), table);
    let gates = count_rows::<F>(lamps, rows_of(counts, LineKind::Lamp), table);
    count_rows::<F>(gates, rows_of(counts, LineKind::Gate), table)
}

// ---- the call

// A circuit in a form that these four bytes open, and how many bytes it has. Writer: 3, 10 for the table, 11, 10 for the bytes.
pub fn write_form<F: Form>(
    counts: Counts,
    table: &[u16],
    text: &mut [u8],
    magic: &[u8; 4],
) -> Result<usize, Refusal>
    requires { 0 ≡ refusal (circuit_tests counts table.now) → length (write_opened magic.now F.each counts table.now) ≤ 60000 }
    ensures { WrittenBy counts table.now (write_opened magic.now F.each counts table.now) text.old (answered result) (answer_or 0 result) text.new }
{
    table::circuit_refusal(counts, table)?;
    if text.len() < text_length::<F>(counts, table) {
        return Err(Refusal::TooShort);
    }
    Ok(put_text::<F>(text, magic, counts, table))
}

pub fn write(counts: Counts, table: &[u16], text: &mut [u8]) -> Result<usize, Refusal>
    ensures { Writing counts table.now text.old (answered result) (answer_or 0 result) text.new }
{
    write_form::<Plain>(counts, table, text, &MAGIC)
}
