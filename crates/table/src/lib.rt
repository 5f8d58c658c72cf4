// The refusals of a table of words: 3, 10 and 11 (specification, 3.5 to 3.7), and 16 for a run (5.8).
#![tactic(auto)]

ghost use Rattle.std.specs.Prelude.{◌≡◌, ◌+◌, ◌*◌, ◌<◌, ◌≤◌, length, IfOk};
ghost use Rattle.three.specs.Lists.{every};
ghost use Rattle.circuit.specs.Refusal.{all_hold, refusal};
ghost use Rattle.circuit.specs.Answer.{answered};
ghost use Rattle.circuit.specs.Table.{top, table_length, kinds, table_tests, ceiling_tests, word_tests, circuit_tests, board_tests};
ghost use Rattle.circuit.specs.RulesInCode.{latch_kept, literal_kept, gate_kept, Bounded};

use circuit::{
    Board, Counts, MOST_BADS, MOST_CONSTRAINTS, MOST_GATES, MOST_INPUTS, MOST_LAMPS, MOST_LATCHES,
    Refusal,
};

fn latch_kept(table: &[u16], at: usize, most: u16) -> bool
    requires { at + 1 < length table.now }
    ensures { result ≡ latch_kept most table.now at }
{
    if table[at] > most {
        return false;
    }
    table[at + 1] <= 2
}

fn latches_kept(table: &[u16], count: usize, most: u16) -> bool
    requires { 2 * count ≤ length table.now }
    ensures { result ≡ every count (λ i. latch_kept most table.now (2 * i)) }
{
    for i in 0..count {
        if !latch_kept(table, 2 * i, most) {
            return false;
        }
    }
    true
}

fn literals_kept(table: &[u16], at: usize, count: usize, most: u16) -> bool
    requires { at + count ≤ length table.now }
    ensures { result ≡ every count (λ i. literal_kept most table.now (at + i)) }
{
    for &word in &table[at..at + count] {
        if word > most {
            return false;
        }
    }
    true
}

fn gate_kept(table: &[u16], at: usize, own: usize) -> bool
    requires { at + 1 < length table.now }
    ensures { result ≡ gate_kept own table.now at }
{
    let left = table[at] as usize;
    if left >= own {
        return false;
    }
    let right = table[at + 1] as usize;
    right < own
}

// The first gate's own literal is `own`.
fn gates_kept(table: &[u16], at: usize, count: usize, own: usize) -> bool
    requires { (at + 2 * count ≤ length table.now) × (own + 2 * count ≤ 8192) }
    ensures { result ≡ every count (λ i. gate_kept (own + 2 * i) table.now (at + 2 * i)) }
{
    for i in 0..count {
        if !gate_kept(table, at + 2 * i, own + 2 * i) {
            return false;
        }
    }
    true
}

// The table keeps rules 6, 7 and 8.
fn rules_kept(counts: Counts, table: &[u16]) -> bool
    requires { Bounded counts × (table_length counts ≤ length table.now) }
    ensures { result ≡ all_hold (table_tests (top counts) (kinds counts) table.now) }
{
    let most = counts.top() as u16;
    let own = counts.first_gate();
    if !latches_kept(table, counts.latches, most) {
        return false;
    }
    if !literals_kept(table, counts.literals_at(), counts.literals(), most) {
        return false;
    }
    gates_kept(table, counts.gates_at(), counts.gates, own)
}

// 3: a count over its ceiling.
pub fn ceiling_refusal(counts: Counts) -> Result<(), Refusal>
    ensures { answered result ≡ refusal (ceiling_tests counts) }
{
    if counts.inputs > MOST_INPUTS {
        return Err(Refusal::OverCeiling);
    }
    if counts.latches > MOST_LATCHES {
        return Err(Refusal::OverCeiling);
    }
    if counts.lamps > MOST_LAMPS {
        return Err(Refusal::OverCeiling);
    }
    if counts.gates > MOST_GATES {
        return Err(Refusal::OverCeiling);
    }
    if counts.bads > MOST_BADS {
        return Err(Refusal::OverCeiling);
    }
    if counts.constraints > MOST_CONSTRAINTS {
        return Err(Refusal::OverCeiling);
    }
    Ok(())
}

// The refusals of a table's words, in order: 10 for the table, 11.
fn word_refusal(counts: Counts, table: &[u16]) -> Result<(), Refusal>
    requires { Bounded counts }
    ensures { answered result ≡ refusal (word_tests counts table.now) }
{
    if table.len() < counts.table_length() {
        return Err(Refusal::TooShort);
    }
    if !rules_kept(counts, table) {
        return Err(Refusal::BrokenTable);
    }
    Ok(())
}

// The refusals of a circuit that is written, or read for a tick, in order.
pub fn circuit_refusal(counts: Counts, table: &[u16]) -> Result<(), Refusal>
    ensures { answered result ≡ refusal (circuit_tests counts table.now) }
{
    ceiling_refusal(counts)?;
    word_refusal(counts, table)
}

// The refusals of a circuit that is run, in order.
pub fn board_refusal(counts: Counts, table: &[u16]) -> Result<(), Refusal>
    ensures { answered result ≡ refusal (board_tests counts table.now) }
{
    ceiling_refusal(counts)?;
    if counts.verdicts() == 0 {
        return Err(Refusal::NothingToJudge);
    }
    word_refusal(counts, table)
}

// A circuit that is written, or read for a tick, where nothing refuses it.
pub fn legal_circuit(counts: Counts, table: &[u16]) -> Result<Board<'_>, Refusal>
    ensures number { answered result ≡ refusal (circuit_tests counts table.now) }
    ensures same { IfOk result (λ b. (b.counts ≡ counts) × (b.table.now ≡ table.now)) }
{
    circuit_refusal(counts, table)?;
    Ok(Board { counts, table })
}

// A circuit that is run, where nothing refuses it.
pub fn legal_board(counts: Counts, table: &[u16]) -> Result<Board<'_>, Refusal>
    ensures number { answered result ≡ refusal (board_tests counts table.now) }
    ensures same { IfOk result (λ b. (b.counts ≡ counts) × (b.table.now ≡ table.now)) }
{
    board_refusal(counts, table)?;
    Ok(Board { counts, table })
}
