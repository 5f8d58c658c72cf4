// The reader of texts in any order (specification, 4.15).
#![tactic(auto)]

ghost use Rattle.std.specs.Prelude.{◌≡◌, ◌++◌, ◌+◌, ◌≤◌, length};
ghost use Rattle.circuit.specs.Refusal.{refusal};
ghost use Rattle.circuit.specs.Answer.{answered};
ghost use Rattle.circuit.specs.Table.{variables};
ghost use Rattle.circuit.specs.RulesInCode.{Bounded};
ghost use Rattle.text.specs.Outcome.{accepted, tested, further};
ghost use Rattle.lines.specs.LinesInCode.{from, ending_bytes, numbers_of};
ghost use Rattle.drawn.specs.Lines.{any_header_tests, after_tests, read_drawing, room_tests, LeftBy, ReadingAny};
ghost use Rattle.defined.specs.Places.{held, Spoken};
ghost use Rattle.anyorder.specs.Answers.{drawn_counts, drawn_variables};

use circuit::{Counts, Refusal};
use lines::{Ending, ReadLine};
use reader::MOST_TEXT;

// M is at most 4,095.
const MOST_VARIABLES: usize = 4095;

// 2 and 3, for the first line.
fn header_refusal(first: ReadLine) -> Result<(), Refusal>
    ensures { answered result ≡ refusal (any_header_tests (numbers_of first)) }
{
    reader::count_refusal(first)?;
    let counts = reader::counts_of(first);
    let most = first.entry(0);
    if most > MOST_VARIABLES {
        return Err(Refusal::OverCeiling);
    }
    if counts.variables() > most {
        return Err(Refusal::OverCeiling);
    }
    Ok(())
}

// The counts, and M.
#[derive(Clone, Copy)]
pub struct Drawn {
    pub counts: Counts,
    pub variables: usize,
}

// 20, 21, 22, then 9, then 10 for the table and for the list; and then both are filled.
fn read_listed(
    text: &[u8],
    at: usize,
    ending: Ending,
    counts: Counts,
    most: usize,
    owns: &[u32],
    words: &[u16],
    table: &mut [u16],
    renumbered: &mut [u16],
) -> Result<Drawn, Refusal>
    requires { (at ≤ length text.now) × (most ≤ 4095) × Spoken counts words.now × (variables counts ≤ length owns.now) }
    ensures { LeftBy (tested (after_tests (ending_bytes ending) (held most counts owns.now words.now) (from text.now at) ++ room_tests table.old renumbered.old (held most counts owns.now words.now)) (accepted (held most counts owns.now words.now))) table.old renumbered.old (answered result) (drawn_counts result) (drawn_variables result) table.new renumbered.new }
{
    let mut order = [0u16; 4096];
    defined::judge_drawing(counts, most, owns, words, &mut order)?;
    if !reader::ended(text, at, ending) {
        return Err(Refusal::Trailing);
    }
    if table.len() < counts.table_length() {
        return Err(Refusal::TooShort);
    }
    if renumbered.len() < most + 1 {
        return Err(Refusal::TooShort);
    }
    names::fill_drawing(counts, most, owns, words, &order, table, renumbered);
    Ok(Drawn {
        counts,
        variables: most,
    })
}

// All lines are read before 20, 21 and 22, so they are kept in two lists of this function's own.
fn read_body(
    text: &[u8],
    at: usize,
    ending: Ending,
    counts: Counts,
    most: usize,
    table: &mut [u16],
    renumbered: &mut [u16],
) -> Result<Drawn, Refusal>
    requires { (at ≤ length text.now) × (most ≤ 4095) × Bounded counts }
    ensures { LeftBy (further (room_tests table.old renumbered.old) (read_drawing (ending_bytes ending) most counts (from text.now at))) table.old renumbered.old (answered result) (drawn_counts result) (drawn_variables result) table.new renumbered.new }
{
    let mut owns = [0u32; 4095];
    let mut words = [0u16; 7870];
    let listed = listing::list_body(
        text,
        at,
        ending,
        counts,
        2 * most + 1,
        &mut owns,
        &mut words,
    )?;
    read_listed(
        text,
        listed.at,
        ending,
        counts,
        most,
        &owns[..listed.line],
        &words[..listed.word],
        table,
        renumbered,
    )
}

// Every line has the first one's ending.
pub fn read_any(text: &[u8], table: &mut [u16], renumbered: &mut [u16]) -> Result<Drawn, Refusal>
    ensures { ReadingAny text.now table.old renumbered.old (answered result) (drawn_counts result) (drawn_variables result) table.new renumbered.new }
{
    if text.len() > MOST_TEXT {
        return Err(Refusal::TextTooLong);
    }
    let opening = reader::opening_of(text);
    header_refusal(opening.first)?;
    let counts = reader::counts_of(opening.first);
    let most = opening.first.entry(0);
    read_body(
        text,
        opening.first.next,
        opening.ending,
        counts,
        most,
        table,
        renumbered,
    )
}
