// The public cover: cubes worked out elsewhere, sent with their table (specification, 5.11).
#![tactic(auto)]

ghost use Rattle.std.specs.Prelude.{◌≡◌, ◌≤◌, length, drop};
ghost use Rattle.three.specs.Lists.{over};
ghost use Rattle.three.specs.Record.{bytes_for, pack};
ghost use Rattle.circuit.specs.Table.{verdicts, circuit_of};
ghost use Rattle.cubes.specs.Run.{next_cube, watched_in, start as start_of};
ghost use Rattle.cubes.specs.Buffer.{cube_bytes, cube_of, cube_in};
ghost use Rattle.cubes.specs.BufferInCode.{IsCube, Cubes};
ghost use Rattle.cubes.specs.Given.{covered};
ghost use Rattle.stored.specs.CubesInCode.{SwitchesX};
ghost use Rattle.sent.specs.declared.CoverRefusal.TheVariants.{Refused};
ghost use Rattle.sent.specs.Answer.{cover_answer};
ghost use Rattle.sent.specs.Call.{Sent};
ghost use Rattle.sent.specs.Promise.{Keeps};
ghost use Rattle.sent.specs.SentInCode.{Walked};

use circuit::{Board, Counts, Refusal};
use judge::{LONGEST_VERDICT, NEVER};
use pass::Values;
use stored::LONGEST_CUBE;

// Why the call cover refuses: the number of the cube whose next state is not covered goes with 18.
#[derive(Clone, Copy)]
pub enum CoverRefusal {
    Refused(Refusal),
    NextNotCovered { cube: usize },
}

impl From<Refusal> for CoverRefusal {
    ghost from_gives = { λ r e. e ≡ Refused r };

    fn from(refusal: Refusal) -> CoverRefusal {
        CoverRefusal::Refused(refusal)
    }
}

// What the call cover answers in C: the cube is the one that 18 names, and 0 with any other number.
#[repr(C)]
#[derive(Clone, Copy)]
pub struct CoverAnswer {
    pub number: u32,
    pub cube: usize,
}

impl From<Result<(), CoverRefusal>> for CoverAnswer {
    ghost from_gives = { λ r a. a ≡ cover_answer r };

    fn from(answer: Result<(), CoverRefusal>) -> CoverAnswer {
        match answer {
            Ok(()) => CoverAnswer { number: 0, cube: 0 },
            Err(CoverRefusal::Refused(refusal)) => CoverAnswer {
                number: refusal.number(),
                cube: 0,
            },
            Err(CoverRefusal::NextNotCovered { cube }) => CoverAnswer { number: 18, cube },
        }
    }
}

// The start lies inside one of the n cubes, or needs no cover, a constraint being 0 in it.
fn start_covered(board: &Board<'_>, cubes: &[u8], n: usize) -> bool
    requires { Cubes board.now.counts.latches (cube_bytes board.now.counts.latches) n cubes.now }
    ensures { result ≡ covered (circuit_of board.now.counts board.now.table.now) (cube_in board.now.counts.latches cubes.now) n (start_of (circuit_of board.now.counts board.now.table.now)) }
{
    let latches = board.counts.latches;
    let mut start = [0u8; LONGEST_CUBE];
    stored::store_start(board.table, latches, &mut start);
    let len = stored::cube_bytes(latches);
    stored::find(cubes, len, n, &start).is_some() || stored::start_blocked(board)
}

// One pass over the cube at byte `at`: its lamps and bad states into `seen`; and its next state lies inside one of the n cubes, or needs no cover.
fn next_covered(
    board: &Board<'_>,
    cubes: &[u8],
    len: usize,
    n: usize,
    at: usize,
    values: &mut Values,
    seen: &mut [u8],
) -> bool
    requires { Cubes board.now.counts.latches len n cubes.now × (at ≤ length cubes.now) × IsCube board.now.counts.latches (drop at cubes.now) × SwitchesX board.now.counts values.old.bytes × (bytes_for (verdicts board.now.counts) ≤ length seen.old) }
    ensures { (result ≡ covered (circuit_of board.now.counts board.now.table.now) (cube_in board.now.counts.latches cubes.now) n (next_cube (circuit_of board.now.counts board.now.table.now) (cube_of board.now.counts.latches (drop at cubes.now)))) × SwitchesX board.now.counts values.new.bytes × (seen.new ≡ over (pack (watched_in (circuit_of board.now.counts board.now.table.now) (cube_of board.now.counts.latches (drop at cubes.now)))) seen.old) }
{
    judge::watched_at(board, cubes, at, values, seen);
    let mut next = [0u8; LONGEST_CUBE];
    pass::store(values, board.table, 0, 2, board.counts.latches, &mut next);
    if stored::find(cubes, len, n, &next).is_some() {
        return true;
    }
    stored::blocked(board, &next, values)
}

// The first of the n cubes whose next state is not covered; where there is none `verdict` has what the lamps and bad states are in all of them, never where there is no cube.
fn first_uncovered(board: &Board<'_>, cubes: &[u8], n: usize, verdict: &mut [u8]) -> Option<usize>
    requires { Cubes board.now.counts.latches (cube_bytes board.now.counts.latches) n cubes.now × (bytes_for (verdicts board.now.counts) ≤ length verdict.old) }
    ensures { Walked board.now.counts board.now.table.now cubes.now n verdict.old result verdict.new }
{
    let fields = board.counts.verdicts();
    if n == 0 {
        judge::fill_record(fields, NEVER, verdict);
        return None;
    }
    let len = stored::cube_bytes(board.counts.latches);
    let mut values = Values::fresh();
    if !next_covered(board, cubes, len, n, 0, &mut values, verdict) {
        return Some(0);
    }
    let mut seen = [0u8; LONGEST_VERDICT];
    for k in 1..n {
        if !next_covered(board, cubes, len, n, k * len, &mut values, &mut seen) {
            return Some(k);
        }
        three::agree(verdict, &seen, fields);
    }
    None
}

// The public cover. Nothing is relied on: any numbers and buffers may be handed in.
pub fn cover(
    counts: Counts,
    table: &[u16],
    cubes: &[u8],
    n: usize,
    verdict: &mut [u8],
) -> Result<(), CoverRefusal>
    ensures { Sent (record { counts = counts; table = table.now; cubes = cubes.now; n = n; verdict = verdict.old }) (cover_answer result) verdict.new × Keeps (record { counts = counts; table = table.now; cubes = cubes.now; n = n; verdict = verdict.old }) (cover_answer result) verdict.new }
{
    let board = judge::given_refusal(counts, table, cubes, n)?;
    if !start_covered(&board, cubes, n) {
        return Err(CoverRefusal::Refused(Refusal::StartNotCovered));
    }
    let mut seen = [0u8; LONGEST_VERDICT];
    if let Some(cube) = first_uncovered(&board, cubes, n, &mut seen) {
        return Err(CoverRefusal::NextNotCovered { cube });
    }
    let len = three::record_length(counts.verdicts());
    if verdict.len() < len {
        return Err(CoverRefusal::Refused(Refusal::TooShort));
    }
    verdict[..len].copy_from_slice(&seen[..len]);
    Ok(())
}
