// Refusals 20, 21 and 22 (specification, 4.11), and the order of the gates.
#![tactic(auto)]

ghost use Rattle.std.specs.Prelude.{◌≡◌, List, [], ℕ, ◌+◌, ◌*◌, ◌/◌, ◌<◌, ◌≤◌, length, get_or};
ghost use Rattle.circuit.specs.Answer.{answered};
ghost use Rattle.circuit.specs.Table.{variables};
ghost use Rattle.three.specs.Lists.{every};
ghost use Rattle.pass.specs.ValuesInCode.{Readable};
ghost use Rattle.drawn.specs.Drawing.{Drawing, leaves as leaves_of, lines, defined, all_defined, source};
ghost use Rattle.order.specs.Walk.{source_of};
ghost use Rattle.defined.specs.Places.{held, Entered, Distinct, Entering, Sourced, SomeEntered, Spoken, Judged, DrawingJudged};

use circuit::{Counts, Refusal};
use order::Gates;

// 20 for a line: "a variable defined twice or an own literal odd, below 2 or above 2M + 1"
fn enter_line(counts: Counts, most: usize, owns: &[u32], k: usize, places: &mut [u16; 4096]) -> bool
    requires { (variables counts ≤ length owns.now) × (variables counts ≤ 4095) × (most ≤ 4095) × (k < variables counts) × Entered (held most counts owns.now []) k places.old }
    ensures { Entering (held most counts owns.now []) k result places.new }
{
    let x = owns[k] as usize;
    if x % 2 != 0 {
        return false;
    }
    if x < 2 {
        return false;
    }
    if x > 2 * most + 1 {
        return false;
    }
    let v = x / 2;
    if places[v] != 0 {
        return false;
    }
    places[v] = (k + 1) as u16;
    true
}

// 20 for all lines; and if it is not given, the line of each variable.
pub fn enter_lines(counts: Counts, most: usize, owns: &[u32], places: &mut [u16; 4096]) -> bool
    requires { (variables counts ≤ length owns.now) × (variables counts ≤ 4095) × (most ≤ 4095) × Entered (held most counts owns.now []) 0 places.old }
    ensures { Distinct (held most counts owns.now []) result places.new }
{
    let lines = counts.inputs + counts.latches + counts.gates;
    for k in 0..lines {
        if !enter_line(counts, most, owns, k, places) {
            return false;
        }
    }
    true
}

// 21 for a literal: its variable is 0 or has a line.
fn known(places: &[u16; 4096], x: u16) -> bool
    requires { x < 8192 }
    ensures { (d : Drawing) → Entered d (lines d) places.now → result ≡ defined d x }
{
    let v = (x / 2) as usize;
    v == 0 || places[v] != 0
}

// 21 for `count` literals, one every `step` words from word `at` on.
fn all_known(words: &[u16], at: usize, step: usize, count: usize, places: &[u16; 4096]) -> bool
    requires { Readable words.now at step count }
    ensures { (d : Drawing) → Entered d (lines d) places.now → result ≡ every count (λ i. defined d (get_or words.now (at + step * i) 0)) }
{
    (0..count).all(|i| known(places, words[at + step * i]))
}

// 21 for all literals: next literals, those of one-literal lines, and both operands of each gate.
pub fn all_defined(counts: Counts, words: &[u16], places: &[u16; 4096]) -> bool
    requires { Spoken counts words.now }
    ensures { (most : ℕ) (owns : List ℕ) → Entered (held most counts owns words.now) (variables counts) places.now → result ≡ all_defined (held most counts owns words.now) }
{
    let gates_at = counts.gates_at();
    if !all_known(words, 0, 2, counts.latches, places) {
        return false;
    }
    if !all_known(words, counts.literals_at(), 1, counts.literals(), places) {
        return false;
    }
    if !all_known(words, gates_at, 2, counts.gates, places) {
        return false;
    }
    all_known(words, gates_at + 1, 2, counts.gates, places)
}

// An operand as a gate: 0 for a leaf, 1 + i for gate i. Lines up to `leaves` are inputs and latches.
fn source_at(places: &[u16; 4096], leaves: u16, x: u16) -> u16
    requires { x < 8192 }
    ensures { (d : Drawing) → leaves_of d ≡ leaves → Entered d (lines d) places.now → (source_of result ≡ source d (x / 2)) × (result ≤ d.counts.gates) }
{
    let p = places[(x / 2) as usize];
    if p <= leaves {
        return 0;
    }
    p - leaves
}

// The sources of `count` operands, one every other word from word `at` on.
pub fn find_sources(
    words: &[u16],
    at: usize,
    count: usize,
    places: &[u16; 4096],
    leaves: u16,
    out: &mut [u16; 4096],
)
    requires { Readable words.now at 2 count × (count ≤ 4095) × (length out.old ≡ 4096) }
    ensures { (length out.new ≡ 4096) × ((d : Drawing) → leaves_of d ≡ leaves → Entered d (lines d) places.now → Sourced d words.now at count out.new) }
{
    for (i, source) in out[..count].iter_mut().enumerate() {
        *source = source_at(places, leaves, words[at + 2 * i]);
    }
}

// 22, and if it is not given the order of the gates.
pub fn order_drawing(
    counts: Counts,
    words: &[u16],
    places: &[u16; 4096],
    order: &mut [u16; 4096],
) -> bool
    requires { Spoken counts words.now × SomeEntered counts words.now places.now × (length order.old ≡ 4096) }
    ensures { (most : ℕ) (owns : List ℕ) → Entered (held most counts owns words.now) (variables counts) places.now → Judged (held most counts owns words.now) result order.new }
{
    let gates_at = counts.gates_at();
    let leaves = (counts.inputs + counts.latches) as u16;
    let mut left = [0u16; 4096];
    let mut right = [0u16; 4096];
    find_sources(words, gates_at, counts.gates, places, leaves, &mut left);
    find_sources(
        words,
        gates_at + 1,
        counts.gates,
        places,
        leaves,
        &mut right,
    );
    let mut depths = [0u16; 4096];
    let gates = Gates {
        left: &left,
        right: &right,
        count: counts.gates,
    };
    if !order::find_depths(gates, &mut depths) {
        return false;
    }
    order::order_gates(&depths, counts.gates, order);
    true
}

// "after all lines are read come 20 .. 21 .. 22": the first that is given, and for none the order of the gates.
pub fn judge_drawing(
    counts: Counts,
    most: usize,
    owns: &[u32],
    words: &[u16],
    order: &mut [u16; 4096],
) -> Result<(), Refusal>
    requires { (variables counts ≤ length owns.now) × (most ≤ 4095) × Spoken counts words.now × (length order.old ≡ 4096) }
    ensures { DrawingJudged (held most counts owns.now words.now) (answered result) order.new }
{
    let mut places = [0u16; 4096];
    if !enter_lines(counts, most, owns, &mut places) {
        return Err(Refusal::Definition);
    }
    if !all_defined(counts, words, &places) {
        return Err(Refusal::Undefined);
    }
    if !order_drawing(counts, words, &places, order) {
        return Err(Refusal::Loop);
    }
    Ok(())
}
