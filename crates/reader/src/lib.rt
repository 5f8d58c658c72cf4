// The reader of a circuit's text (specification, 4.9).
#![tactic(auto)]

ghost use Rattle.std.specs.Prelude.{◌≡◌, ℕ, ◌≤◌, ◌<◌, ◌+◌, ◌*◌, length, [], ◌∷◌};
ghost use Rattle.std.proofs.lemmas.List.Edits.{sets};
ghost use Rattle.three.specs.Lists.{over};
ghost use Rattle.circuit.specs.Refusal.{refusal};
ghost use Rattle.circuit.specs.Answer.{answered, answer_or};
ghost use Rattle.circuit.specs.Table.{top, input, latch, literal, gate, several, kinds};
ghost use Rattle.circuit.specs.RulesInCode.{Bounded};
ghost use Rattle.text.specs.Text.{magic as plain_magic, words, line_tests, ends, first_line, header as plain_header, counts_of, count_tests, header_tests, read_lines, circuit_lines, ending_of};
ghost use Rattle.text.specs.Calls.{zeros, Reading};
ghost use Rattle.lines.specs.LinesInCode.{from, ending_bytes, numbers_of, LineFound};
ghost use Rattle.text.specs.declared.LineKind.{LineKind};
ghost use Rattle.reader.specs.ReaderInCode.{Reads, LineShown, LinesJudged, kinds_then, TextJudged, WordsFit, body_words, stand, Fillable, KindFillable, KindFilled};
ghost use Rattle.text.specs.KindsInCode.{coded};

use circuit::{Counts, Refusal};
use lines::{BODY_NUMBERS, Ending, MOST_NUMBERS, ReadLine};
use text::{LineKind, MAGIC};

// At most 60,000 bytes.
pub const MOST_TEXT: usize = 60000;

// A first line that opens with these bytes.
pub fn first_line(text: &[u8], magic: &[u8; 4], ending: Ending) -> ReadLine
    requires { length magic.now ≡ 4 }
    ensures { LineFound text.now (first_line magic.now (ending_bytes ending) text.now) result }
{
    if !text.starts_with(magic) {
        return lines::no_line(0);
    }
    lines::line(text, 4, ending, MOST_NUMBERS)
}

pub fn header(text: &[u8], ending: Ending) -> ReadLine
    ensures { LineFound text.now (plain_header (ending_bytes ending) text.now) result }
{
    first_line(text, &MAGIC, ending)
}

// What the first line says of the others: what ends each line, and its numbers.
#[derive(Clone, Copy)]
pub struct Opening {
    pub ending: Ending,
    pub first: ReadLine,
}

// The first line decides: byte 10 where it is a line with that ending, else bytes 13 and 10.
pub fn opening_of(text: &[u8]) -> Opening
    ensures { LineFound text.now (plain_header (ending_bytes result.ending) text.now) result.first × (ending_of text.now ≡ ending_bytes result.ending) }
{
    let first = header(text, Ending::Newline);
    if first.count != 0 {
        return Opening {
            ending: Ending::Newline,
            first,
        };
    }
    Opening {
        ending: Ending::OfficeNewline,
        first: header(text, Ending::OfficeNewline),
    }
}

// The counts of the first line; one that is left off is 0.
pub fn counts_of(first: ReadLine) -> Counts
    ensures { result ≡ counts_of (numbers_of first) }
{
    Counts {
        inputs: first.entry(1),
        latches: first.entry(2),
        lamps: first.entry(3),
        gates: first.entry(4),
        bads: first.entry(5),
        constraints: first.entry(6),
    }
}

// 2, then 3 for J, F and the counts. An ill-formed line has no numbers, which is 2.
pub fn count_refusal(first: ReadLine) -> Result<(), Refusal>
    ensures { answered result ≡ refusal (count_tests (numbers_of first)) }
{
    if first.count < 5 {
        return Err(Refusal::FirstLine);
    }
    if first.entry(7) != 0 {
        return Err(Refusal::OverCeiling); // J
    }
    if first.entry(8) != 0 {
        return Err(Refusal::OverCeiling); // F
    }
    table::ceiling_refusal(counts_of(first))
}

// 2 and 3, for the first line.
pub fn header_refusal(first: ReadLine) -> Result<(), Refusal>
    ensures { answered result ≡ refusal (header_tests (numbers_of first)) }
{
    count_refusal(first)?;
    let counts = counts_of(first);
    if first.entry(0) != counts.variables() {
        return Err(Refusal::OverCeiling);
    }
    Ok(())
}

fn input_refusal(own: usize, found: ReadLine) -> Result<(), Refusal>
    ensures { (most : ℕ) → answered result ≡ refusal (line_tests most (input own) (numbers_of found)) }
{
    if found.count != 1 {
        return Err(Refusal::BodyLine);
    }
    if found.entry(0) != own {
        return Err(Refusal::OwnLiteral);
    }
    Ok(())
}

fn latch_refusal(own: usize, most: usize, found: ReadLine) -> Result<(), Refusal>
    ensures { answered result ≡ refusal (line_tests most (latch own) (numbers_of found)) }
{
    if found.count < 2 {
        return Err(Refusal::BodyLine);
    }
    if found.count > 3 {
        return Err(Refusal::BodyLine);
    }
    if found.entry(0) != own {
        return Err(Refusal::OwnLiteral);
    }
    if found.entry(1) > most {
        return Err(Refusal::LiteralTooLarge);
    }
    if found.reset_word() > 2 {
        return Err(Refusal::Reset);
    }
    Ok(())
}

fn lamp_refusal(most: usize, found: ReadLine) -> Result<(), Refusal>
    ensures { answered result ≡ refusal (line_tests most literal (numbers_of found)) }
{
    if found.count != 1 {
        return Err(Refusal::BodyLine);
    }
    if found.entry(0) > most {
        return Err(Refusal::LiteralTooLarge);
    }
    Ok(())
}

fn gate_refusal(own: usize, most: usize, found: ReadLine) -> Result<(), Refusal>
    ensures { answered result ≡ refusal (line_tests most (gate own) (numbers_of found)) }
{
    if found.count != 3 {
        return Err(Refusal::BodyLine);
    }
    let given = found.entry(0);
    if given != own {
        return Err(Refusal::OwnLiteral);
    }
    let left = found.entry(1);
    let right = found.entry(2);
    if left > most {
        return Err(Refusal::LiteralTooLarge); // 6 comes before 7
    }
    if right > most {
        return Err(Refusal::LiteralTooLarge);
    }
    if left >= own {
        return Err(Refusal::OperandNotBelow); // not below its gate
    }
    if right >= own {
        return Err(Refusal::OperandNotBelow);
    }
    Ok(())
}

// 4, 5, 6, then 7 or 8, for a line of a kind with its own literal. An ill-formed line has no numbers, which is 4.
pub fn line_refusal(kind: LineKind, own: usize, most: usize, found: ReadLine) -> Result<(), Refusal>
    ensures { answered result ≡ refusal (line_tests most (coded kind own) (numbers_of found)) }
{
    match kind {
        LineKind::Input => input_refusal(own, found),
        LineKind::Latch => latch_refusal(own, most, found),
        LineKind::Lamp => lamp_refusal(most, found),
        LineKind::Gate => gate_refusal(own, most, found),
    }
}

// A form of a circuit's text: how each of its lines is read.
pub trait Form: Copy {
    ghost reads: { Self → ℕ → Reads };

    ghost has_line: { Self → LineKind → Type 0 };

    // A line of a kind with its own literal, which a form may leave out.
    fn line(self, text: &[u8], at: usize, kind: LineKind, own: usize) -> ReadLine
        requires { (at ≤ length text.now) × has_line self kind }
        ensures { LineShown (reads self) text.now at (coded kind own) result };
}

// The plain form, with its ending.
impl Form for Ending {
    ghost reads = { λ ending most. read_lines (ending_bytes ending) (line_tests most) };

    ghost has_line = { λ ending kind. Unit {0} };

    #[inline(always)] // the numbers of a line stay where the loop over lines has them
    fn line(self, text: &[u8], at: usize, _kind: LineKind, _own: usize) -> ReadLine {
        lines::line(text, at, self, BODY_NUMBERS)
    }
}

// Lines of one kind, the first with the literal `own`; the position behind them.
pub fn judge_lines<F: Form>(
    text: &[u8],
    form: F,
    at: usize,
    kind: LineKind,
    own: usize,
    count: usize,
    most: usize,
) -> Result<usize, Refusal>
    requires { (at ≤ length text.now) × F.has_line form kind × (own + 2 * count ≤ 10000) }
    ensures { LinesJudged (F.reads form most) text.now at (several (coded kind) own count) result }
{
    let mut next = at;
    for i in 0..count {
        let found = form.line(text, next, kind, own + 2 * i);
        line_refusal(kind, own + 2 * i, most, found)?;
        next = found.next;
    }
    Ok(next)
}

// The end of the text, or a line that is just `c`.
pub fn ended(text: &[u8], at: usize, ending: Ending) -> bool
    requires { at ≤ length text.now }
    ensures { result ≡ ends (ending_bytes ending) (from text.now at) }
{
    if at == text.len() {
        return true;
    }
    if text[at] != b'c' {
        return false;
    }
    lines::ending_at(text, at + 1, ending).is_some()
}

// One line for each input, latch, lamp, bad state, constraint and gate, in that order; the position behind them.
fn judge_body(text: &[u8], at: usize, ending: Ending, counts: Counts) -> Result<usize, Refusal>
    requires { Bounded counts × (at ≤ length text.now) }
    ensures { LinesJudged (read_lines (ending_bytes ending) (line_tests (top counts))) text.now at (kinds_then counts) result }
{
    let most = counts.top();
    let latches = judge_lines(text, ending, at, LineKind::Input, 2, counts.inputs, most)?;
    let lamps = judge_lines(
        text,
        ending,
        latches,
        LineKind::Latch,
        counts.first_latch(),
        counts.latches,
        most,
    )?;
    let gates = judge_lines(
        text,
        ending,
        lamps,
        LineKind::Lamp,
        0,
        counts.literals(),
        most,
    )?;
    judge_lines(
        text,
        ending,
        gates,
        LineKind::Gate,
        counts.first_gate(),
        counts.gates,
        most,
    )
}

// What the first line says, and where the body starts, of a text that nothing refuses.
#[derive(Clone, Copy)]
pub struct Body {
    pub counts: Counts,
    pub at: usize,
}

// Reader: 1, 2, 3, then line by line (4, 5, 6, then 7 or 8), 9: once over the text, and nothing is written.
pub fn judge(text: &[u8], opening: Opening) -> Result<Body, Refusal>
    requires { LineFound text.now (plain_header (ending_bytes opening.ending) text.now) opening.first }
    ensures { TextJudged plain_magic (ending_bytes opening.ending) (circuit_lines (ending_bytes opening.ending)) text.now result }
{
    if text.len() > MOST_TEXT {
        return Err(Refusal::TextTooLong);
    }
    header_refusal(opening.first)?;
    let counts = counts_of(opening.first);
    let at = opening.first.next;
    let end = judge_body(text, at, opening.ending, counts)?;
    if !ended(text, end, opening.ending) {
        return Err(Refusal::Trailing);
    }
    Ok(Body { counts, at })
}

// Where the second pass stands: in the text and in the table.
#[derive(Clone, Copy)]
pub struct Place {
    pub at: usize,
    pub word: usize,
}

// A word stored; the place behind it.
pub fn fill_word(value: usize, table: &mut [u16], word: usize) -> usize
    requires { (value < 65536) × (word < length table.old) }
    ensures { (table.new ≡ sets table.old word (value ∷ [])) × (result ≡ word + 1) }
{
    table[word] = value as u16;
    word + 1
}

// The words of a line of a kind, stored from a word of the table on; the word behind them.
pub fn fill_line(kind: LineKind, found: ReadLine, table: &mut [u16], word: usize) -> usize
    requires { WordsFit (words (coded kind 0) (numbers_of found)) word table.old }
    ensures { (table.new ≡ sets table.old word (words (coded kind 0) (numbers_of found))) × (result ≡ word + length (words (coded kind 0) (numbers_of found))) }
{
    match kind {
        LineKind::Input => word,
        LineKind::Lamp => fill_word(found.entry(0), table, word),
        LineKind::Latch => {
            let second = fill_word(found.entry(1), table, word);
            fill_word(found.reset_word(), table, second)
        }
        LineKind::Gate => {
            let second = fill_word(found.entry(1), table, word);
            fill_word(found.entry(2), table, second)
        }
    }
}

// Lines of one kind, the first with the literal `own`; the place behind them.
pub fn fill_lines<F: Form>(
    text: &[u8],
    form: F,
    start: Place,
    kind: LineKind,
    own: usize,
    count: usize,
    table: &mut [u16],
) -> Place
    requires { F.has_line form kind × (own + 2 * count ≤ 10000) × KindFillable (λ c. F.reads form (top c)) text.now (coded kind) own count start table.old }
    ensures { KindFilled (λ c. F.reads form (top c)) text.now (coded kind) own count start table.old result table.new }
{
    let mut at = start.at;
    let mut word = start.word;
    for i in 0..count {
        let found = form.line(text, at, kind, own + 2 * i);
        word = fill_line(kind, found, table, word);
        at = found.next;
    }
    Place { at, word }
}

// The words of a body that nothing refuses, into the front of the table.
pub fn fill(text: &[u8], at: usize, ending: Ending, counts: Counts, table: &mut [u16])
    requires { Bounded counts × Fillable (circuit_lines (ending_bytes ending) counts) text.now (stand (kinds counts) at 0 table.old) }
    ensures { table.new ≡ over (body_words (circuit_lines (ending_bytes ending) counts) (kinds counts) (from text.now at)) table.old }
{
    let body = Place { at, word: 0 };
    let latches = fill_lines(text, ending, body, LineKind::Input, 2, counts.inputs, table);
    let lamps = fill_lines(
        text,
        ending,
        latches,
        LineKind::Latch,
        counts.first_latch(),
        counts.latches,
        table,
    );
    let gates = fill_lines(
        text,
        ending,
        lamps,
        LineKind::Lamp,
        0,
        counts.literals(),
        table,
    );
    fill_lines(
        text,
        ending,
        gates,
        LineKind::Gate,
        counts.first_gate(),
        counts.gates,
        table,
    );
}

// The text is judged as a whole before a word is stored; every line has the first one's ending.
pub fn read(text: &[u8], table: &mut [u16]) -> Result<Counts, Refusal>
    ensures { Reading text.now table.old (answered result) (answer_or zeros result) table.new }
{
    let opening = opening_of(text);
    let body = judge(text, opening)?;
    if table.len() < body.counts.table_length() {
        return Err(Refusal::TooShort);
    }
    fill(text, body.at, opening.ending, body.counts, table);
    Ok(body.counts)
}
