// The lines of a drawing, read into two lists: own literals, and the other numbers (specification, 4.11).
#![tactic(auto)]

ghost use Rattle.std.specs.Prelude.{◌≡◌, ℕ, ◌≤◌, ◌<◌, ◌+◌, ◌*◌, length, get_or, ◌∷◌};
ghost use Rattle.std.proofs.lemmas.List.Edits.{sets};
ghost use Rattle.circuit.specs.Refusal.{refusal};
ghost use Rattle.circuit.specs.Answer.{answered};
ghost use Rattle.circuit.specs.Table.{several};
ghost use Rattle.circuit.specs.RulesInCode.{Bounded};
ghost use Rattle.text.specs.Text.{fits, words as words_of, shown_own};
ghost use Rattle.text.specs.KindsInCode.{coded};
ghost use Rattle.lines.specs.LinesInCode.{ending_bytes, numbers_of};
ghost use Rattle.drawn.specs.Lines.{any_tests};
ghost use Rattle.listing.specs.ListingInCode.{shown_by, worded, stand, reached, Listable, Listed, BodyListed};

use circuit::{Counts, Refusal};
use lines::{BODY_NUMBERS, Ending, ReadLine};
use text::LineKind;

fn count_fits(kind: LineKind, count: usize) -> bool
    ensures { result ≡ fits (coded kind 0) count }
{
    match kind {
        LineKind::Input | LineKind::Lamp => count == 1,
        LineKind::Latch => 2 <= count && count <= 3,
        LineKind::Gate => count == 3,
    }
}

// The words of a line, 0 where it has none.
fn first_word(kind: LineKind, found: ReadLine) -> usize
    ensures { result ≡ get_or (words_of (coded kind 0) (numbers_of found)) 0 0 }
{
    match kind {
        LineKind::Input => 0,
        LineKind::Lamp => found.entry(0),
        LineKind::Latch | LineKind::Gate => found.entry(1),
    }
}

fn second_word(kind: LineKind, found: ReadLine) -> usize
    ensures { result ≡ get_or (words_of (coded kind 0) (numbers_of found)) 1 0 }
{
    match kind {
        LineKind::Input | LineKind::Lamp => 0,
        LineKind::Latch => found.reset_word(),
        LineKind::Gate => found.entry(2),
    }
}

// 4, then 6 and 8, for a line of a kind. An own literal is judged later. An ill-formed line has no numbers, which is 4.
fn line_refusal(kind: LineKind, most: usize, found: ReadLine) -> Result<(), Refusal>
    ensures { answered result ≡ refusal (any_tests most (coded kind 0) (numbers_of found)) }
{
    if !count_fits(kind, found.count) {
        return Err(Refusal::BodyLine);
    }
    if first_word(kind, found) > most {
        return Err(Refusal::LiteralTooLarge);
    }
    let second = second_word(kind, found);
    match kind {
        LineKind::Latch => {
            if second > 2 {
                return Err(Refusal::Reset);
            }
            Ok(())
        }
        LineKind::Input | LineKind::Lamp | LineKind::Gate => {
            if second > most {
                return Err(Refusal::LiteralTooLarge);
            }
            Ok(())
        }
    }
}

// The own literal that a line shows, listed; the place behind it.
fn keep_own(kind: LineKind, found: ReadLine, owns: &mut [u32], line: usize) -> usize
    requires { (get_or (numbers_of found) 0 0 < 100000) × (line + shown_by (coded kind 0) ≤ length owns.old) }
    ensures { (owns.new ≡ sets owns.old line (shown_own (coded kind 0) (numbers_of found))) × (result ≡ line + shown_by (coded kind 0)) }
{
    match kind {
        LineKind::Lamp => line,
        LineKind::Input | LineKind::Latch | LineKind::Gate => {
            owns[line] = found.entry(0) as u32;
            line + 1
        }
    }
}

// Where the reading stands: the position behind the lines that are read, and the places behind what they gave.
#[derive(Clone, Copy)]
pub struct Progress {
    pub at: usize,
    pub line: usize,
    pub word: usize,
}

fn list_line(
    text: &[u8],
    start: Progress,
    ending: Ending,
    kind: LineKind,
    most: usize,
    owns: &mut [u32],
    words: &mut [u16],
) -> Result<Progress, Refusal>
    requires { Listable text.now most (shown_by (coded kind 0)) (worded (coded kind 0)) (stand start.at start.line start.word owns.old words.old) }
    ensures { (own : ℕ) → Listed (ending_bytes ending) text.now most (λ ks. coded kind own ∷ ks) (shown_by (coded kind 0)) (worded (coded kind 0)) (answered result) (stand start.at start.line start.word owns.old words.old) (reached result owns.new words.new) }
{
    let found = lines::line(text, start.at, ending, BODY_NUMBERS);
    line_refusal(kind, most, found)?;
    let line = keep_own(kind, found, owns, start.line);
    let word = reader::fill_line(kind, found, words, start.word);
    Ok(Progress {
        at: found.next,
        line,
        word,
    })
}

// Lines of one kind.
fn list_lines(
    text: &[u8],
    start: Progress,
    ending: Ending,
    kind: LineKind,
    count: usize,
    most: usize,
    owns: &mut [u32],
    words: &mut [u16],
) -> Result<Progress, Refusal>
    requires { Listable text.now most (count * shown_by (coded kind 0)) (count * worded (coded kind 0)) (stand start.at start.line start.word owns.old words.old) }
    ensures { (own : ℕ) → Listed (ending_bytes ending) text.now most (several (coded kind) own count) (count * shown_by (coded kind 0)) (count * worded (coded kind 0)) (answered result) (stand start.at start.line start.word owns.old words.old) (reached result owns.new words.new) }
{
    let mut place = start;
    for _ in 0..count {
        place = list_line(text, place, ending, kind, most, owns, words)?;
    }
    Ok(place)
}

// One line for each input, latch, lamp, bad state, constraint and gate, in that order.
pub fn list_body(
    text: &[u8],
    at: usize,
    ending: Ending,
    counts: Counts,
    most: usize,
    owns: &mut [u32],
    words: &mut [u16],
) -> Result<Progress, Refusal>
    requires { Bounded counts × (at ≤ length text.now) × (most < 8192) × (4095 ≤ length owns.old) × (7870 ≤ length words.old) }
    ensures { BodyListed (ending_bytes ending) text.now at counts most owns.old words.old result owns.new words.new }
{
    let body = Progress {
        at,
        line: 0,
        word: 0,
    };
    let inputs = list_lines(
        text,
        body,
        ending,
        LineKind::Input,
        counts.inputs,
        most,
        owns,
        words,
    )?;
    let latches = list_lines(
        text,
        inputs,
        ending,
        LineKind::Latch,
        counts.latches,
        most,
        owns,
        words,
    )?;
    let lamps = list_lines(
        text,
        latches,
        ending,
        LineKind::Lamp,
        counts.literals(),
        most,
        owns,
        words,
    )?;
    list_lines(
        text,
        lamps,
        ending,
        LineKind::Gate,
        counts.gates,
        most,
        owns,
        words,
    )
}
