// The public tick (specification, 3.8).
#![tactic(auto)]

ghost use Rattle.std.specs.Prelude.{◌≡◌, ◌*◌, ◌<◌, ◌≤◌, length};
ghost use Rattle.three.specs.Lists.{over};
ghost use Rattle.three.specs.Record.{bytes_for, pack};
ghost use Rattle.three.specs.RecordInCode.{IsRecord};
ghost use Rattle.circuit.specs.Refusal.{refusal};
ghost use Rattle.circuit.specs.RulesInCode.{Bounded};
ghost use Rattle.circuit.specs.Answer.{answered};
ghost use Rattle.tick.specs.Tick.{record_tests, tick_result_tests, next_fields, lamp_fields, Ticked};

use circuit::{Board, Counts, Refusal};
use pass::Values;

// The refusals of a state and a switch record, in order: 10 for given records, 14.
fn record_refusal(counts: Counts, state: &[u8], switches: &[u8]) -> Result<(), Refusal>
    requires { Bounded counts }
    ensures { answered result ≡ refusal (record_tests counts state.now switches.now) }
{
    if state.len() < three::record_length(counts.latches) {
        return Err(Refusal::TooShort);
    }
    if switches.len() < three::record_length(counts.inputs) {
        return Err(Refusal::TooShort);
    }
    if !three::sound(state, counts.latches) {
        return Err(Refusal::Unsound);
    }
    if !three::sound(switches, counts.inputs) {
        return Err(Refusal::Unsound);
    }
    Ok(())
}

// 10 for result buffers of these lengths.
fn result_refusal(counts: Counts, next: usize, lamps: usize) -> Result<(), Refusal>
    ensures { answered result ≡ refusal (tick_result_tests counts next lamps) }
{
    if next < three::record_length(counts.latches) {
        return Err(Refusal::TooShort);
    }
    if lamps < three::record_length(counts.lamps) {
        return Err(Refusal::TooShort);
    }
    Ok(())
}

// One pass, and the records of the next state and of the lamps from it.
fn tick_into(board: &Board<'_>, state: &[u8], switches: &[u8], next: &mut [u8], lamps: &mut [u8])
    requires { IsRecord board.now.counts.latches state.now × IsRecord board.now.counts.inputs switches.now × (bytes_for board.now.counts.latches ≤ length next.old) × (bytes_for board.now.counts.lamps ≤ length lamps.old) }
    ensures { (next.new ≡ over (pack (next_fields board.now.counts board.now.table.now state.now switches.now)) next.old) × (lamps.new ≡ over (pack (lamp_fields board.now.counts board.now.table.now state.now switches.now)) lamps.old) }
{
    let mut values = Values::fresh();
    pass::settle(board, state, switches, &mut values);
    pass::store(&values, board.table, 0, 2, board.counts.latches, next);
    let first = board.counts.literals_at();
    pass::store(&values, board.table, first, 1, board.counts.lamps, lamps);
}

// THE PUBLIC TICK: the next state and the lamps of a state under switch settings, either with X in it.
pub fn tick(
    counts: Counts,
    table: &[u16],
    state: &[u8],
    switches: &[u8],
    next: &mut [u8],
    lamps: &mut [u8],
) -> Result<(), Refusal>
    ensures { Ticked (record { counts = counts; table = table.now; state = state.now; switches = switches.now; next = next.old; lamps = lamps.old }) (answered result) next.new lamps.new }
{
    let board = table::legal_circuit(counts, table)?;
    record_refusal(counts, state, switches)?;
    result_refusal(counts, next.len(), lamps.len())?;
    tick_into(&board, state, switches, next, lamps);
    Ok(())
}
