// Why a lamp has its value (specification, 5.13): the latches that force it, found by following what each gate's value comes from.
#![tactic(auto)]

ghost use Rattle.std.specs.Prelude.{◌≡◌, not, [], ◌∷◌, ◌+◌, ◌*◌, ◌-◌, ◌/◌, ◌%◌, ◌<◌, ◌≤◌, length, get_or};
ghost use Rattle.three.specs.Lists.{over};
ghost use Rattle.three.specs.Value.{unknown, low, high, code, decode, ternary};
ghost use Rattle.three.specs.Cube.{alike, blank};
ghost use Rattle.three.specs.Record.{bytes_for, pair_at, pack, unpack};
ghost use Rattle.three.specs.RecordInCode.{IsRecord};
ghost use Rattle.circuit.specs.Circuit.{value};
ghost use Rattle.circuit.specs.Refusal.{refusal};
ghost use Rattle.circuit.specs.Answer.{answered};
ghost use Rattle.circuit.specs.Table.{top, circuit_of};
ghost use Rattle.pass.specs.ValuesInCode.{Begins, values_of};
ghost use Rattle.asked.specs.Follow.{values_in, forcing};
ghost use Rattle.asked.specs.Call.{given_tests, Explained};
ghost use Rattle.asked.specs.Promise.{Suffices};
ghost use Rattle.why.specs.MarksInCode.{Ready, FollowedMarks, follows, AskableOf, marked, marked_fields, Begun, Answered};

use circuit::{Board, Counts, Refusal};
use pass::Values;

// A mark for each variable: it is asked about for the value that it has, so one serves.
const VARIABLES: usize = 4096;

type Marks = [bool; VARIABLES];

// The gates whose words stand from word `at` on, the first of them variable `first`, and the values of all variables.
#[derive(Clone, Copy)]
struct Gates<'a> {
    table: &'a [u16],
    at: usize,
    first: usize,
    values: &'a Values,
}

// "A literal is 2 × variable, plus 1 if inverted." 0 is the code 1, and the code 2 read inverted.
fn is_low(values: &Values, x: u16) -> bool
    requires { x < 8192 }
    ensures { result ≡ alike (value ternary (values_of values.now.bytes) x) low }
{
    let v = values.get((x / 2) as usize);
    v == 1 + (x % 2) as u8
}

// Marks a literal's variable; true for a gate that was not yet followed.
fn begin(first: usize, x: u16, marks: &mut Marks) -> bool
    requires { x < 8192 }
    ensures { Begun first (x / 2) marks.old marks.new result }
{
    let v = (x / 2) as usize;
    let old = marks[v];
    marks[v] = true;
    !old && first <= v
}

impl Gates<'_> {
    // The two operands of a gate, by its own literal.
    fn operands(&self, x: u16) -> (u16, u16)
        requires { (self.now.first ≤ x / 2) × (self.now.at + 2 * (x / 2 - self.now.first) + 1 < length self.now.table.now) }
        ensures { (result.0 ≡ get_or self.now.table.now (self.now.at + 2 * (x / 2 - self.now.first)) 0) × (result.1 ≡ get_or self.now.table.now (self.now.at + 2 * (x / 2 - self.now.first) + 1) 0) }
    {
        let p = self.at + 2 * ((x / 2) as usize - self.first);
        (self.table[p], self.table[p + 1])
    }

    // "For a gate at 0 the first operand is followed if it is 0, otherwise the second."
    fn low_operand(&self, x: u16) -> u16
        requires { (self.now.first ≤ x / 2) × (x % 2 ≡ 0) × AskableOf self.now x low }
        ensures { follows self.now (x / 2) ≡ result ∷ [] }
    {
        let (left, right) = self.operands(x);
        if is_low(self.values, left) {
            return left;
        }
        right
    }

    // Follows why a literal is 0. "An inverted literal turns the question round."
    #[cycle(why_one_why_zero)]
    fn why_zero(&self, x: u16, marks: &mut Marks)
        requires { AskableOf self.now x low × Ready (follows self.now) (x / 2) marks.old }
        ensures { FollowedMarks (follows self.now) marks.old marks.new (x / 2) }
    {
        if x % 2 == 1 {
            self.why_one(x - 1, marks);
            return;
        }
        if !begin(self.first, x, marks) {
            return;
        }
        let cause = self.low_operand(x);
        self.why_zero(cause, marks);
    }

    // Follows why a literal is 1: "For a gate at 1 both operands are followed."
    #[cycle(why_one_why_zero)]
    fn why_one(&self, x: u16, marks: &mut Marks)
        requires { AskableOf self.now x high × Ready (follows self.now) (x / 2) marks.old }
        ensures { FollowedMarks (follows self.now) marks.old marks.new (x / 2) }
    {
        if x % 2 == 1 {
            self.why_zero(x - 1, marks);
            return;
        }
        if !begin(self.first, x, marks) {
            return;
        }
        let (left, right) = self.operands(x);
        self.why_one(left, marks);
        self.why_one(right, marks);
    }

    // Follows why a literal has its value, which is known.
    fn follow(&self, x: u16, marks: &mut Marks)
        requires { (value ternary (values_of self.now.values.now.bytes) x ≡ unknown → ⊥) × AskableOf self.now x (value ternary (values_of self.now.values.now.bytes) x) × Ready (follows self.now) (x / 2) marks.old }
        ensures { FollowedMarks (follows self.now) marks.old marks.new (x / 2) }
    {
        if is_low(self.values, x) {
            self.why_zero(x, marks);
            return;
        }
        self.why_one(x, marks);
    }
}

// Field number i of a record if its variable is marked, X if not.
fn marked_field(state: &[u8], marks: &Marks, first: usize, i: usize) -> u8
    requires { (i < 4 * length state.now) × (pair_at state.now i < 3) × (first + i < 4096) }
    ensures { result ≡ code (blank (decode (pair_at state.now i)) (not (marked marks.now (first + i)))) }
{
    if !marks[first + i] {
        return 0;
    }
    three::field(state, i)
}

// The record of those fields, into the front of `out`.
fn store_marked(state: &[u8], marks: &Marks, first: usize, count: usize, out: &mut [u8])
    requires { IsRecord count state.now × (first + count ≤ 4096) × (bytes_for count ≤ length out.old) }
    ensures { out.new ≡ over (pack (marked_fields marks.now state.now first count)) out.old }
{
    three::store_fields(count, |i| marked_field(state, marks, first, i), out);
}

// The latches that force a literal's value, which is known, from the values of all variables.
fn explain(board: &Board<'_>, state: &[u8], values: &Values, x: u16, out: &mut [u8])
    requires { IsRecord board.now.counts.latches state.now × Begins values.now.bytes (values_in (circuit_of board.now.counts board.now.table.now) (unpack board.now.counts.latches state.now)) × (x ≤ top board.now.counts) × (value ternary (values_of values.now.bytes) x ≡ unknown → ⊥) × (bytes_for board.now.counts.latches ≤ length out.old) }
    ensures { out.new ≡ over (pack (forcing (circuit_of board.now.counts board.now.table.now) (unpack board.now.counts.latches state.now) x)) out.old }
{
    let first = 1 + board.counts.inputs;
    let gates = Gates {
        table: board.table,
        at: board.counts.gates_at(),
        first: first + board.counts.latches,
        values,
    };
    let mut marks = [false; VARIABLES];
    gates.follow(x, &mut marks);
    store_marked(state, &marks, first, board.counts.latches, out);
}

// The values of all variables in a state, all switches X: those of a new table are.
fn settle_unknown(board: &Board<'_>, state: &[u8]) -> Values
    requires { IsRecord board.now.counts.latches state.now }
    ensures { Begins result.bytes (values_in (circuit_of board.now.counts board.now.table.now) (unpack board.now.counts.latches state.now)) }
{
    let mut values = Values::fresh();
    pass::settle_state(board, state, &mut values);
    values
}

// The refusals of the given record and the lamp's number, in order: 10, 14, 23.
fn given_refusal(board: &Board<'_>, state: &[u8], lamp: usize) -> Result<(), Refusal>
    ensures { answered result ≡ refusal (given_tests board.now.counts state.now lamp) }
{
    let latches = board.counts.latches;
    if state.len() < three::record_length(latches) {
        return Err(Refusal::TooShort);
    }
    if !three::sound(state, latches) {
        return Err(Refusal::Unsound);
    }
    if lamp >= board.counts.lamps {
        return Err(Refusal::NoSuchLamp);
    }
    Ok(())
}

// The answer for a lamp of a legal circuit, after its own refusals: 24 where the lamp is X, 10 for the result.
fn answer(board: &Board<'_>, state: &[u8], lamp: usize, why: &mut [u8]) -> Result<(), Refusal>
    requires { IsRecord board.now.counts.latches state.now × (lamp < board.now.counts.lamps) }
    ensures { Answered board.now.counts board.now.table.now state.now lamp why.old (answered result) why.new }
{
    let x = board.table[board.counts.literals_at() + lamp];
    let values = settle_unknown(board, state);
    if values.get((x / 2) as usize) == 0 {
        return Err(Refusal::LampUnknown);
    }
    if why.len() < three::record_length(board.counts.latches) {
        return Err(Refusal::TooShort);
    }
    explain(board, state, &values, x, why);
    Ok(())
}

// The public call: the latches of a state that force a lamp's value there, whatever the switches do. Nothing is relied on.
pub fn why(
    counts: Counts,
    table: &[u16],
    state: &[u8],
    lamp: usize,
    why: &mut [u8],
) -> Result<(), Refusal>
    ensures { Explained (record { counts = counts; table = table.now; state = state.now; lamp = lamp; why = why.old }) (answered result) why.new × Suffices (record { counts = counts; table = table.now; state = state.now; lamp = lamp; why = why.old }) (answered result) why.new }
{
    let board = table::legal_circuit(counts, table)?;
    given_refusal(&board, state, lamp)?;
    answer(&board, state, lamp, why)
}
