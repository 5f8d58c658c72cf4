// The C interface (include/chudravik.h): each public call under its C name, with the same contract, and what C is answered.
#![tactic(auto)]

ghost use Rattle.std.specs.Prelude.{◌≡◌};
ghost use Rattle.circuit.specs.Answer.{answered, answer_or};
ghost use Rattle.tick.specs.Tick.{Ticked};
ghost use Rattle.text.specs.Calls.{zeros, Reading, Writing};
ghost use Rattle.anyorder.specs.Answers.{drawn_counts, drawn_variables};
ghost use Rattle.drawn.specs.Lines.{ReadingAny};
ghost use Rattle.binary.specs.Calls.{BinaryReading, BinaryWriting};
ghost use Rattle.cubes.specs.Chain.{Chained};
ghost use Rattle.cubes.specs.Judge.{Judged};
ghost use Rattle.cubes.specs.Promise.{Closing, Promises};
ghost use Rattle.cubes.specs.Exact.{Singles};
ghost use Rattle.beginners.specs.Calls.{ReadingBeginners, ChainedBeginners};
ghost use Rattle.beginners.specs.Promise.{AlsoRead, AlwaysCloses};
ghost use Rattle.sent.specs.Call.{Sent};
ghost use Rattle.sent.specs.Promise.{Keeps};
ghost use Rattle.asked.specs.Call.{Explained};
ghost use Rattle.asked.specs.Promise.{Suffices};
ghost use Rattle.merging.specs.Call.{Merging};
ghost use Rattle.merging.specs.Promise.{Narrowest};

use anyorder::Drawn;
use circuit::{Counts, Refusal};
use cubes::{ChainAnswer, ChainRefusal, JudgeAnswer};
use sent::CoverAnswer;

// Beside a refusal.
const ZEROS: Counts = Counts {
    inputs: 0,
    latches: 0,
    lamps: 0,
    gates: 0,
    bads: 0,
    constraints: 0,
};

// What a reader answers in C.
#[repr(C)]
#[derive(Clone, Copy)]
pub struct ReadAnswer {
    pub number: u32,
    pub counts: Counts,
}

impl From<Result<Counts, Refusal>> for ReadAnswer {
    ghost from_gives = { λ r a. (a.number ≡ answered r) × (a.counts ≡ answer_or zeros r) };

    fn from(answer: Result<Counts, Refusal>) -> ReadAnswer {
        match answer {
            Ok(counts) => ReadAnswer { number: 0, counts },
            Err(refusal) => ReadAnswer {
                number: refusal.number(),
                counts: ZEROS,
            },
        }
    }
}

// What the reader for any order answers in C: M besides.
#[repr(C)]
#[derive(Clone, Copy)]
pub struct ReadAnyAnswer {
    pub number: u32,
    pub counts: Counts,
    pub variables: usize,
}

impl From<Result<Drawn, Refusal>> for ReadAnyAnswer {
    ghost from_gives = { λ r a. (a.number ≡ answered r) × (a.counts ≡ drawn_counts r) × (a.variables ≡ drawn_variables r) };

    fn from(answer: Result<Drawn, Refusal>) -> ReadAnyAnswer {
        match answer {
            Ok(drawn) => ReadAnyAnswer {
                number: 0,
                counts: drawn.counts,
                variables: drawn.variables,
            },
            Err(refusal) => ReadAnyAnswer {
                number: refusal.number(),
                counts: ZEROS,
                variables: 0,
            },
        }
    }
}

// What a writer answers in C: the count of bytes written.
#[repr(C)]
#[derive(Clone, Copy)]
pub struct WriteAnswer {
    pub number: u32,
    pub bytes: usize,
}

impl From<Result<usize, Refusal>> for WriteAnswer {
    ghost from_gives = { λ r a. (a.number ≡ answered r) × (a.bytes ≡ answer_or 0 r) };

    fn from(answer: Result<usize, Refusal>) -> WriteAnswer {
        match answer {
            Ok(bytes) => WriteAnswer { number: 0, bytes },
            Err(refusal) => WriteAnswer {
                number: refusal.number(),
                bytes: 0,
            },
        }
    }
}

#[unsafe(no_mangle)]
pub extern "C" fn chudravik_read(text: &[u8], table: &mut [u16]) -> ReadAnswer
    ensures { Reading text.now table.old result.number result.counts table.new }
{
    ReadAnswer::from(reader::read(text, table))
}

#[unsafe(no_mangle)]
pub extern "C" fn chudravik_read_any(
    text: &[u8],
    table: &mut [u16],
    renumbered: &mut [u16],
) -> ReadAnyAnswer
    ensures { ReadingAny text.now table.old renumbered.old result.number result.counts result.variables table.new renumbered.new }
{
    ReadAnyAnswer::from(anyorder::read_any(text, table, renumbered))
}

#[unsafe(no_mangle)]
pub extern "C" fn chudravik_read_binary(bytes: &[u8], table: &mut [u16]) -> ReadAnswer
    ensures { BinaryReading bytes.now table.old result.number result.counts table.new }
{
    ReadAnswer::from(binary_reader::read_binary(bytes, table))
}

#[unsafe(no_mangle)]
pub extern "C" fn chudravik_read_beginners(text: &[u8], table: &mut [u16]) -> ReadAnswer
    ensures { ReadingBeginners text.now table.old result.number result.counts table.new × AlsoRead text.now table.old result.number result.counts table.new }
{
    ReadAnswer::from(beginner_board::read_beginners(text, table))
}

#[unsafe(no_mangle)]
pub extern "C" fn chudravik_write(counts: Counts, table: &[u16], text: &mut [u8]) -> WriteAnswer
    ensures { Writing counts table.now text.old result.number result.bytes text.new }
{
    WriteAnswer::from(writer::write(counts, table, text))
}

#[unsafe(no_mangle)]
pub extern "C" fn chudravik_write_binary(
    counts: Counts,
    table: &[u16],
    bytes: &mut [u8],
) -> WriteAnswer
    ensures { BinaryWriting counts table.now bytes.old result.number result.bytes bytes.new }
{
    WriteAnswer::from(binary_writer::write_binary(counts, table, bytes))
}

#[unsafe(no_mangle)]
pub extern "C" fn chudravik_tick(
    counts: Counts,
    table: &[u16],
    state: &[u8],
    switches: &[u8],
    next: &mut [u8],
    lamps: &mut [u8],
) -> u32
    ensures { Ticked (record { counts = counts; table = table.now; state = state.now; switches = switches.now; next = next.old; lamps = lamps.old }) result next.new lamps.new }
{
    circuit::number(tick::tick(counts, table, state, switches, next, lamps))
}

#[unsafe(no_mangle)]
pub extern "C" fn chudravik_chain(
    counts: Counts,
    table: &[u16],
    w: usize,
    cubes: &mut [u8],
) -> ChainAnswer
    ensures { Chained (record { counts = counts; table = table.now; w = w; cubes = cubes.old }) result cubes.new × Closing (record { counts = counts; table = table.now; w = w; cubes = cubes.old }) result × Singles (record { counts = counts; table = table.now; w = w; cubes = cubes.old }) result cubes.new }
{
    ChainAnswer::from(chained::chain(counts, table, w, cubes))
}

#[unsafe(no_mangle)]
pub extern "C" fn chudravik_chain_beginners(
    counts: Counts,
    table: &[u16],
    cubes: &mut [u8],
) -> ChainAnswer
    ensures { ChainedBeginners (record { counts = counts; table = table.now; cubes = cubes.old }) result cubes.new × AlwaysCloses (record { counts = counts; table = table.now; cubes = cubes.old }) result cubes.new }
{
    let chain = beginner_board::chain_beginners(counts, table, cubes);
    ChainAnswer::from(chain.map_err(ChainRefusal::Refused))
}

#[unsafe(no_mangle)]
pub extern "C" fn chudravik_judge(
    counts: Counts,
    table: &[u16],
    cubes: &[u8],
    n: usize,
    j: usize,
    verdict: &mut [u8],
    settled: &mut [u8],
) -> JudgeAnswer
    ensures { Judged (record { counts = counts; table = table.now; cubes = cubes.now; n = n; j = j; verdict = verdict.old; settled = settled.old }) result verdict.new settled.new × Promises (record { counts = counts; table = table.now; cubes = cubes.now; n = n; j = j; verdict = verdict.old; settled = settled.old }) verdict.new settled.new result }
{
    JudgeAnswer::from(judged::judge(counts, table, cubes, n, j, verdict, settled))
}

#[unsafe(no_mangle)]
pub extern "C" fn chudravik_cover(
    counts: Counts,
    table: &[u16],
    cubes: &[u8],
    n: usize,
    verdict: &mut [u8],
) -> CoverAnswer
    ensures { Sent (record { counts = counts; table = table.now; cubes = cubes.now; n = n; verdict = verdict.old }) result verdict.new × Keeps (record { counts = counts; table = table.now; cubes = cubes.now; n = n; verdict = verdict.old }) result verdict.new }
{
    CoverAnswer::from(sent::cover(counts, table, cubes, n, verdict))
}

#[unsafe(no_mangle)]
pub extern "C" fn chudravik_why(
    counts: Counts,
    table: &[u16],
    state: &[u8],
    lamp: usize,
    why: &mut [u8],
) -> u32
    ensures { Explained (record { counts = counts; table = table.now; state = state.now; lamp = lamp; why = why.old }) result why.new × Suffices (record { counts = counts; table = table.now; state = state.now; lamp = lamp; why = why.old }) result why.new }
{
    circuit::number(why::why(counts, table, state, lamp, why))
}

#[unsafe(no_mangle)]
pub extern "C" fn chudravik_merge(fields: usize, a: &[u8], b: &[u8], merged: &mut [u8]) -> u32
    ensures { Merging (record { fields = fields; a = a.now; b = b.now; merged = merged.old }) result merged.new × Narrowest (record { fields = fields; a = a.now; b = b.now; merged = merged.old }) result merged.new }
{
    circuit::number(merging::merge(fields, a, b, merged))
}
