// What judging cubes in a buffer takes: their refusals, what gets a verdict in a cube, the settled record (specification, 5.6 and 5.7).
#![tactic(auto)]

ghost use Rattle.std.specs.Prelude.{◌≡◌, ◌<◌, ◌≤◌, length, drop, replicate, IfOk};
ghost use Rattle.three.specs.Lists.{over};
ghost use Rattle.three.specs.Value.{decode};
ghost use Rattle.three.specs.Record.{bytes_for, pack};
ghost use Rattle.circuit.specs.Refusal.{refusal};
ghost use Rattle.circuit.specs.Answer.{answered};
ghost use Rattle.circuit.specs.Table.{verdicts, circuit_of};
ghost use Rattle.cubes.specs.Run.{watched_in};
ghost use Rattle.cubes.specs.Buffer.{cube_bytes, cube_of};
ghost use Rattle.cubes.specs.BufferInCode.{IsCube};
ghost use Rattle.cubes.specs.GivenInCode.{given_tests};
ghost use Rattle.stored.specs.CubesInCode.{SwitchesX, Settled};
ghost use Rattle.judge.specs.JudgeInCode.{merged_fields, settled_from, Settleable};

use circuit::{Board, Counts, Refusal};
use pass::Values;
use stored::LONGEST_CUBE;

// The record of the most verdicts: 64 lamps and 64 bad states.
pub const LONGEST_VERDICT: usize = 32;

// A verdict of never.
pub const NEVER: u8 = 1;

// What is given to be judged, where nothing refuses it before the cubes are looked into: a circuit that is run, and n cubes. In order: the refusals of the circuit, 10 for the cubes, 14.
pub fn given_refusal<'a>(
    counts: Counts,
    table: &'a [u16],
    cubes: &[u8],
    n: usize,
) -> Result<Board<'a>, Refusal>
    ensures number { answered result ≡ refusal (given_tests counts table.now cubes.now n) }
    ensures same { IfOk result (λ b. (b.counts ≡ counts) × (b.table.now ≡ table.now)) }
{
    let board = table::legal_board(counts, table)?;
    stored::cubes_refusal(counts, cubes, n)?;
    Ok(board)
}

// The record of the lamps and bad states in the cube at byte `at`, from a pass over it.
pub fn watched_at(board: &Board<'_>, cubes: &[u8], at: usize, values: &mut Values, out: &mut [u8])
    requires { (at ≤ length cubes.now) × IsCube board.now.counts.latches (drop at cubes.now) × SwitchesX board.now.counts values.old.bytes × (bytes_for (verdicts board.now.counts) ≤ length out.old) }
    ensures { Settled board.now.counts board.now.table.now (cube_of board.now.counts.latches (drop at cubes.now)) values.new.bytes × (out.new ≡ over (pack (watched_in (circuit_of board.now.counts board.now.table.now) (cube_of board.now.counts.latches (drop at cubes.now)))) out.old) }
{
    stored::settle_cube(board, cubes, at, values);
    let first = board.counts.literals_at();
    pass::store(values, board.table, first, 1, board.counts.verdicts(), out);
}

// The record whose fields all have this value, into the front of `out`.
pub fn fill_record(fields: usize, value: u8, out: &mut [u8])
    requires { (value < 3) × (fields ≤ 512) × (bytes_for fields ≤ length out.old) }
    ensures { out.new ≡ over (pack (replicate fields (decode value))) out.old }
{
    three::store_fields(fields, |_| value, out);
}

// What cubes j to n − 1 know alike, into the front of `common`; their marks are merged as fields are.
fn merge_cubes(latches: usize, cubes: &[u8], len: usize, n: usize, j: usize, common: &mut [u8])
    requires { Settleable latches len n j cubes.now × (cube_bytes latches ≤ length common.old) }
    ensures { common.new ≡ over (pack (merged_fields latches cubes.now n j)) common.old }
{
    common[..len].copy_from_slice(&cubes[j * len..][..len]);
    for k in j + 1..n {
        three::agree(common, &cubes[k * len..], latches + 1);
    }
}

// Per latch the known value shared by cubes j to n − 1, else 00.
pub fn settle_latches(
    latches: usize,
    cubes: &[u8],
    len: usize,
    n: usize,
    j: usize,
    settled: &mut [u8],
)
    requires { Settleable latches len n j cubes.now × (bytes_for latches ≤ length settled.old) }
    ensures { settled.new ≡ over (pack (settled_from latches cubes.now n j)) settled.old }
{
    let mut common = [0u8; LONGEST_CUBE];
    merge_cubes(latches, cubes, len, n, j, &mut common);
    stored::store_latches(latches, &common, 0, settled);
}
