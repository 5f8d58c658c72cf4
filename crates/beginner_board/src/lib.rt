// The calls for beginners' boards (request 12): their reader, and their run (specification, 4.19 and 5.15).
#![tactic(auto)]

ghost use Rattle.std.specs.Prelude.{◌≡◌, ◌+◌, ◌*◌, ◌<◌, ◌≤◌, length, get_or, IfOk};
ghost use Rattle.three.specs.Lists.{every};
ghost use Rattle.circuit.specs.Refusal.{refusal};
ghost use Rattle.circuit.specs.Answer.{answered, answer_or};
ghost use Rattle.circuit.specs.RulesInCode.{Bounded};
ghost use Rattle.circuit.specs.Table.{table_length};
ghost use Rattle.text.specs.Text.{magic, circuit_lines, ending_of};
ghost use Rattle.text.specs.Calls.{zeros};
ghost use Rattle.lines.specs.LinesInCode.{ending_bytes};
ghost use Rattle.cubes.specs.Answers.{roomy_answer};
ghost use Rattle.reader.specs.ReaderInCode.{BodyAt};
ghost use Rattle.beginners.specs.Rules.{small_tests, varies, well_fed, feed_tests};
ghost use Rattle.beginners.specs.Calls.{ReadingBeginners, chain_beginners_tests, ChainedBeginners};
ghost use Rattle.beginners.specs.Promise.{AlsoRead, AlwaysCloses};

use circuit::{Board, Counts, Refusal};
use cubes::Chain;
use lines::Ending;
use reader::Body;

// At most 4 switches, 8 latches, 8 lamps, 32 gates, no bad state and no constraint.
const MOST_INPUTS: usize = 4;

const MOST_LATCHES: usize = 8;

const MOST_LAMPS: usize = 8;

const MOST_GATES: usize = 32;
// So a table has at most 2 × 8 + 8 + 2 × 32 words.
const MOST_WORDS: usize = 88;
// The cube buffer has at least 19,683 bytes, and at most 65,536.
const LEAST_CUBE_BYTES: usize = 19683;

const MOST_CUBE_BYTES: usize = 65536;

// 25 for counts over the beginners' ceilings, and for B or C not 0.
fn small_refusal(counts: Counts) -> Result<(), Refusal>
    ensures { answered result ≡ refusal (small_tests counts) }
{
    if counts.inputs > MOST_INPUTS {
        return Err(Refusal::Beginners);
    }
    if counts.latches > MOST_LATCHES {
        return Err(Refusal::Beginners);
    }
    if counts.lamps > MOST_LAMPS {
        return Err(Refusal::Beginners);
    }
    if counts.gates > MOST_GATES {
        return Err(Refusal::Beginners);
    }
    if counts.bads != 0 {
        return Err(Refusal::Beginners);
    }
    if counts.constraints != 0 {
        return Err(Refusal::Beginners);
    }
    Ok(())
}

// None of the literals is constant that stand every `step` words from word `at` on.
fn literals_vary(table: &[u16], at: usize, step: usize, count: usize) -> bool
    requires { (1 ≤ step) × (at + step * count ≤ length table.now) }
    ensures { result ≡ every count (λ i. varies (get_or table.now (at + step * i) 0)) }
{
    for i in 0..count {
        if table[at + step * i] < 2 {
            return false;
        }
    }
    true
}

// The gate whose operands stand at a word: none is constant, and they are two variables.
fn well_fed(table: &[u16], at: usize) -> bool
    requires { at + 1 < length table.now }
    ensures { result ≡ well_fed (get_or table.now at 0) (get_or table.now (at + 1) 0) }
{
    let left = table[at];
    let right = table[at + 1];
    if left < 2 {
        return false;
    }
    if right < 2 {
        return false;
    }
    left / 2 != right / 2
}

fn gates_fed(table: &[u16], at: usize, count: usize) -> bool
    requires { at + 2 * count ≤ length table.now }
    ensures { result ≡ every count (λ i. well_fed (get_or table.now (at + 2 * i) 0) (get_or table.now (at + 2 * i + 1) 0)) }
{
    for i in 0..count {
        if !well_fed(table, at + 2 * i) {
            return false;
        }
    }
    true
}

// 25 for the words of a table.
fn feed_refusal(counts: Counts, table: &[u16]) -> Result<(), Refusal>
    requires { Bounded counts × (table_length counts ≤ length table.now) }
    ensures { answered result ≡ refusal (feed_tests counts table.now) }
{
    if !literals_vary(table, 0, 2, counts.latches) {
        return Err(Refusal::Beginners);
    }
    if !literals_vary(table, counts.literals_at(), 1, counts.literals()) {
        return Err(Refusal::Beginners);
    }
    if !gates_fed(table, counts.gates_at(), counts.gates) {
        return Err(Refusal::Beginners);
    }
    Ok(())
}

// ---- the reader

// 25 comes before the first word, so a board's words are judged in a table of this function's own.
fn read_body(text: &[u8], ending: Ending, body: Body, table: &mut [u16]) -> Result<Counts, Refusal>
    requires { BodyAt magic (ending_bytes ending) (circuit_lines (ending_bytes ending)) text.now body.counts body.at × (ending_of text.now ≡ ending_bytes ending) × (table_length body.counts ≤ length table.old) }
    ensures { ReadingBeginners text.now table.old (answered result) (answer_or zeros result) table.new }
{
    let counts = body.counts;
    small_refusal(counts)?;
    let mut words = [0u16; MOST_WORDS];
    reader::fill(text, body.at, ending, counts, &mut words);
    feed_refusal(counts, &words)?;
    reader::fill(text, body.at, ending, counts, table);
    Ok(counts)
}

// 1 to 9, then 10 by the text's own length, then 25.
pub fn read_beginners(text: &[u8], table: &mut [u16]) -> Result<Counts, Refusal>
    ensures { ReadingBeginners text.now table.old (answered result) (answer_or zeros result) table.new × AlsoRead text.now table.old (answered result) (answer_or zeros result) table.new }
{
    let opening = reader::opening_of(text);
    let body = reader::judge(text, opening)?;
    if table.len() < body.counts.table_length() {
        return Err(Refusal::TooShort);
    }
    read_body(text, opening.ending, body, table)
}

// ---- the run

// Its refusals, in order, for a buffer of this length; the board where there is none.
fn chain_refusal(counts: Counts, table: &[u16], cubes: usize) -> Result<Board<'_>, Refusal>
    ensures number { answered result ≡ refusal (chain_beginners_tests counts table.now cubes) }
    ensures same { IfOk result (λ b. (b.counts ≡ counts) × (b.table.now ≡ table.now)) }
{
    let board = table::legal_board(counts, table)?;
    small_refusal(counts)?;
    feed_refusal(counts, table)?;
    if cubes < LEAST_CUBE_BYTES {
        return Err(Refusal::CubeBuffer);
    }
    if cubes > MOST_CUBE_BYTES {
        return Err(Refusal::CubeBuffer); // over 65,536 bytes
    }
    Ok(board)
}

// The run of a beginners' board: it does not widen, and always closes. Nothing is relied on: any numbers and buffers may be handed in.
pub fn chain_beginners(counts: Counts, table: &[u16], cubes: &mut [u8]) -> Result<Chain, Refusal>
    ensures { ChainedBeginners (record { counts = counts; table = table.now; cubes = cubes.old }) (roomy_answer result) cubes.new × AlwaysCloses (record { counts = counts; table = table.now; cubes = cubes.old }) (roomy_answer result) cubes.new }
{
    let board = chain_refusal(counts, table, cubes.len())?;
    // There is room for every cube.
    Ok(chain::make_chain(&board, 0, cubes).unwrap())
}
