// The public judge: verdict, settled record and s of a chain, closed or ended (specification, 5.12).
#![tactic(auto)]

ghost use Rattle.std.specs.Prelude.{◌≡◌, ◌+◌, ◌*◌, ◌<◌, ◌≤◌, ltb, length, drop, IfSome, MatchOption};
ghost use Rattle.three.specs.Lists.{over};
ghost use Rattle.three.specs.Cube.{known_fields};
ghost use Rattle.three.specs.Record.{bytes_for, pack};
ghost use Rattle.circuit.specs.Table.{verdicts, circuit_of};
ghost use Rattle.cubes.specs.Answers.{judge_answer};
ghost use Rattle.cubes.specs.Run.{next_cube, watched_in, start as start_of};
ghost use Rattle.cubes.specs.Buffer.{cube_bytes, cube_of, cube_in};
ghost use Rattle.cubes.specs.BufferInCode.{longest_cube, IsCube, Cubes};
ghost use Rattle.cubes.specs.Given.{same, onward as onward_of, starts_chain};
ghost use Rattle.cubes.specs.Judge.{Judged};
ghost use Rattle.cubes.specs.Promise.{Promises};
ghost use Rattle.stored.specs.CubesInCode.{SwitchesX};
ghost use Rattle.judge.specs.JudgeInCode.{settled_from};
ghost use Rattle.judged.specs.JudgedInCode.{and_then, lies_in, goes_into, Walked, ChainFound, Written};

use circuit::{Board, Counts, Refusal};
use judge::{LONGEST_VERDICT, NEVER};
use pass::Values;
use stored::LONGEST_CUBE;

// In the mark's place of a cube that another is to lie inside of: 00 has no bit that the other's mark could miss.
const NO_MARK: u8 = 0;

// There is a cube 0, and it is the resets.
fn starts(board: &Board<'_>, cubes: &[u8], n: usize) -> bool
    requires { Cubes board.now.counts.latches (cube_bytes board.now.counts.latches) n cubes.now }
    ensures { result ≡ and_then (ltb 0 n) (same (cube_of board.now.counts.latches cubes.now) (start_of (circuit_of board.now.counts board.now.table.now))) }
{
    if n == 0 {
        return false;
    }
    let latches = board.counts.latches;
    let mut start = [0u8; LONGEST_CUBE];
    stored::store_start(board.table, latches, &mut start);
    let len = stored::cube_bytes(latches);
    if !stored::subsumes(cubes, 0, len, &start) {
        return false;
    }
    let around = stored::marked(NO_MARK, &start, len);
    stored::covers(&around, 0, len, cubes)
}

// The number of the cube that comes after cube k: the following one, and j after the last; none where j = n.
fn onward(n: usize, j: usize, k: usize) -> Option<usize>
    requires { k < n }
    ensures { MatchOption result (n ≤ onward_of n j k) (λ m. (m ≡ onward_of n j k) × (m < n)) }
{
    if k + 1 < n {
        return Some(k + 1);
    }
    if j < n {
        return Some(j);
    }
    None
}

// The latches given as a record lie inside the cube of this number, where there is one.
fn lies_inside(cubes: &[u8], after: Option<usize>, len: usize, latches: &[u8]) -> bool
    requires { IfSome after (λ m. m * len + len ≤ length cubes.now) × (len ≤ longest_cube) × (len ≤ length latches.now) }
    ensures { result ≡ lies_in len cubes.now latches.now after }
{
    match after {
        Some(m) => stored::subsumes(cubes, m * len, len, latches),
        None => false,
    }
}

// One pass over the cube at byte `at`: what gets a verdict in it into `watched`; and its next state lies inside the cube that comes after, where there is one, or a constraint is 0 in it.
fn goes_on(
    board: &Board<'_>,
    cubes: &[u8],
    at: usize,
    after: Option<usize>,
    values: &mut Values,
    watched: &mut [u8],
) -> bool
    requires { (at ≤ length cubes.now) × IsCube board.now.counts.latches (drop at cubes.now) × IfSome after (λ m. (m * cube_bytes board.now.counts.latches + cube_bytes board.now.counts.latches ≤ length cubes.now) × IsCube board.now.counts.latches (drop (m * cube_bytes board.now.counts.latches) cubes.now)) × SwitchesX board.now.counts values.old.bytes × (bytes_for (verdicts board.now.counts) ≤ length watched.old) }
    ensures { (result ≡ goes_into (circuit_of board.now.counts board.now.table.now) (cube_in board.now.counts.latches cubes.now) after (next_cube (circuit_of board.now.counts board.now.table.now) (cube_of board.now.counts.latches (drop at cubes.now)))) × SwitchesX board.now.counts values.new.bytes × (watched.new ≡ over (pack (watched_in (circuit_of board.now.counts board.now.table.now) (cube_of board.now.counts.latches (drop at cubes.now)))) watched.old) }
{
    judge::watched_at(board, cubes, at, values, watched);
    let latches = board.counts.latches;
    let mut next = [0u8; LONGEST_CUBE];
    pass::store(values, board.table, 0, 2, latches, &mut next);
    if lies_inside(cubes, after, stored::cube_bytes(latches), &next) {
        return true;
    }
    stored::blocked(board, &next, values)
}

// Each next state goes to the cube that comes after; `verdict` then has what the lamps and bad states are in all n cubes.
fn all_go_on(board: &Board<'_>, cubes: &[u8], n: usize, j: usize, verdict: &mut [u8]) -> bool
    requires { Cubes board.now.counts.latches (cube_bytes board.now.counts.latches) n cubes.now × (1 ≤ n) × (bytes_for (verdicts board.now.counts) ≤ length verdict.old) }
    ensures { Walked board.now.counts board.now.table.now cubes.now n j verdict.old result verdict.new }
{
    let len = stored::cube_bytes(board.counts.latches);
    let mut values = Values::fresh();
    if !goes_on(board, cubes, 0, onward(n, j, 0), &mut values, verdict) {
        return false;
    }
    let mut watched = [0u8; LONGEST_VERDICT];
    for k in 1..n {
        let after = onward(n, j, k);
        if !goes_on(board, cubes, k * len, after, &mut values, &mut watched) {
            return false;
        }
        three::agree(verdict, &watched, board.counts.verdicts());
    }
    true
}

// Cube 0 is the resets, or a constraint is 0 in them.
fn starts_chain(board: &Board<'_>, cubes: &[u8], n: usize) -> bool
    requires { Cubes board.now.counts.latches (cube_bytes board.now.counts.latches) n cubes.now }
    ensures { result ≡ starts_chain (circuit_of board.now.counts board.now.table.now) (cube_in board.now.counts.latches cubes.now) n }
{
    starts(board, cubes, n) || stored::start_blocked(board)
}

// 19 is not given: the n cubes are a chain that goes back to j, or ends; `verdict` then has what the lamps and bad states are in all of them, and never where there is none.
fn is_chain(board: &Board<'_>, cubes: &[u8], n: usize, j: usize, verdict: &mut [u8]) -> bool
    requires { Cubes board.now.counts.latches (cube_bytes board.now.counts.latches) n cubes.now × (bytes_for (verdicts board.now.counts) ≤ length verdict.old) }
    ensures { ChainFound board.now.counts board.now.table.now cubes.now n j verdict.old result verdict.new }
{
    if j > n {
        return false;
    }
    if !starts_chain(board, cubes, n) {
        return false;
    }
    if n == 0 {
        judge::fill_record(board.counts.verdicts(), NEVER, verdict);
        return true;
    }
    all_go_on(board, cubes, n, j, verdict)
}

// A latch that is not settled.
const UNSETTLED: u8 = 0;

// The settled record, and s: all 00 and 0 where the chain has ended.
fn settle(latches: usize, cubes: &[u8], n: usize, j: usize, settled: &mut [u8]) -> usize
    requires { (latches ≤ 512) × Cubes latches (cube_bytes latches) n cubes.now × (j ≤ n) × (bytes_for latches ≤ length settled.old) }
    ensures { (settled.new ≡ over (pack (settled_from latches cubes.now n j)) settled.old) × (result ≡ known_fields (settled_from latches cubes.now n j)) }
{
    if j == n {
        judge::fill_record(latches, UNSETTLED, settled);
        return 0;
    }
    judge::settle_latches(latches, cubes, stored::cube_bytes(latches), n, j, settled);
    three::known_fields(settled, latches)
}

// What was read into the verdict, the settled record, and s.
fn write_results(
    board: &Board<'_>,
    cubes: &[u8],
    n: usize,
    j: usize,
    watched: &[u8],
    verdict: &mut [u8],
    settled: &mut [u8],
) -> usize
    requires { Cubes board.now.counts.latches (cube_bytes board.now.counts.latches) n cubes.now × (j ≤ n) × (bytes_for (verdicts board.now.counts) ≤ length watched.now) × (bytes_for (verdicts board.now.counts) ≤ length verdict.old) × (bytes_for board.now.counts.latches ≤ length settled.old) }
    ensures { Written board.now.counts cubes.now n j watched.now verdict.old settled.old result verdict.new settled.new }
{
    let len = three::record_length(board.counts.verdicts());
    verdict[..len].copy_from_slice(&watched[..len]);
    settle(board.counts.latches, cubes, n, j, settled)
}

// The public judge: s, where nothing refuses. Nothing is relied on: any numbers and buffers may be handed in.
pub fn judge(
    counts: Counts,
    table: &[u16],
    cubes: &[u8],
    n: usize,
    j: usize,
    verdict: &mut [u8],
    settled: &mut [u8],
) -> Result<usize, Refusal>
    ensures { Judged (record { counts = counts; table = table.now; cubes = cubes.now; n = n; j = j; verdict = verdict.old; settled = settled.old }) (judge_answer result) verdict.new settled.new × Promises (record { counts = counts; table = table.now; cubes = cubes.now; n = n; j = j; verdict = verdict.old; settled = settled.old }) verdict.new settled.new (judge_answer result) }
{
    let board = judge::given_refusal(counts, table, cubes, n)?;
    let mut watched = [0u8; LONGEST_VERDICT];
    if !is_chain(&board, cubes, n, j, &mut watched) {
        return Err(Refusal::NotAChain);
    }
    if verdict.len() < three::record_length(counts.verdicts()) {
        return Err(Refusal::TooShort);
    }
    if settled.len() < three::record_length(counts.latches) {
        return Err(Refusal::TooShort);
    }
    Ok(write_results(&board, cubes, n, j, &watched, verdict, settled))
}
