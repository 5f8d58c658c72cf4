// The public chain: the cubes of a run, n and j (specification, 5.8).
#![tactic(auto)]

ghost use Rattle.std.specs.Prelude.{◌≡◌, ◌-◌, ◌<◌, IfOk};
ghost use Rattle.circuit.specs.Refusal.{refusal};
ghost use Rattle.circuit.specs.Answer.{answered};
ghost use Rattle.cubes.specs.Chain.{chain_tests, Chained};
ghost use Rattle.cubes.specs.Answers.{chain_answer};
ghost use Rattle.cubes.specs.Promise.{Closing};
ghost use Rattle.cubes.specs.Exact.{Singles};

use circuit::{Board, Counts, Refusal};
use cubes::{Chain, ChainRefusal};

// Interval w is 0 to 1,000.
const MOST_INTERVAL: usize = 1000;
// A cube buffer has at most 65,536 bytes.
const MOST_CUBE_BYTES: usize = 65536;

// The refusals of a chain before 15, in order, for a buffer of this length; the board where there is none.
fn chain_refusal(
    counts: Counts,
    table: &[u16],
    w: usize,
    cubes: usize,
) -> Result<Board<'_>, Refusal>
    ensures number { answered result ≡ refusal (chain_tests counts table.now w cubes) }
    ensures same { IfOk result (λ b. (b.counts ≡ counts) × (b.table.now ≡ table.now)) }
{
    let board = table::legal_board(counts, table)?;
    if w > MOST_INTERVAL {
        return Err(Refusal::Interval);
    }
    if cubes < stored::cube_bytes(counts.latches) {
        return Err(Refusal::CubeBuffer);
    }
    if cubes > MOST_CUBE_BYTES {
        return Err(Refusal::CubeBuffer); // over 65,536 bytes
    }
    Ok(board)
}

// The public chain. Nothing is relied on: any numbers and buffers may be handed in.
pub fn chain(
    counts: Counts,
    table: &[u16],
    w: usize,
    cubes: &mut [u8],
) -> Result<Chain, ChainRefusal>
    ensures { Chained (record { counts = counts; table = table.now; w = w; cubes = cubes.old }) (chain_answer result) cubes.new × Closing (record { counts = counts; table = table.now; w = w; cubes = cubes.old }) (chain_answer result) × Singles (record { counts = counts; table = table.now; w = w; cubes = cubes.old }) (chain_answer result) cubes.new }
{
    let board = chain_refusal(counts, table, w, cubes.len())?;
    let made = chain::make_chain(&board, w, cubes)?;
    Ok(made)
}
