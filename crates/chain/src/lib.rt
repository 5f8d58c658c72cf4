// The cubes of a run, its n and its j: widening, closing, ending, room (specification, 5.2 to 5.5).
#![tactic(auto)]

ghost use Rattle.std.specs.Prelude.{◌≡◌, true, ◌+◌, ◌*◌, ◌-◌, ◌<◌, ◌≤◌, length};
ghost use Rattle.std.proofs.Math.Seq.{paste};
ghost use Rattle.three.specs.Lists.{first};
ghost use Rattle.three.specs.Record.{unpack};
ghost use Rattle.three.specs.RecordInCode.{IsRecord};
ghost use Rattle.circuit.specs.Table.{circuit_of};
ghost use Rattle.cubes.specs.Run.{due as is_due, blocked};
ghost use Rattle.cubes.specs.Buffer.{cube_bytes};
ghost use Rattle.cubes.specs.BufferInCode.{longest_cube};
ghost use Rattle.cubes.specs.HeldInCode.{differing_byte};
ghost use Rattle.three.specs.Value.{code, known};
ghost use Rattle.stored.specs.CubesInCode.{raised_bytes, covers_from, SwitchesX};
ghost use Rattle.chain.specs.ChainInCode.{held_after, widened_bytes, gone_to, made_cubes, Advanced, Followable, ChainMade};

use circuit::Board;
use cubes::{Chain, NoRoom};
use pass::Values;
use stored::LONGEST_CUBE;

// If w is not 0 and divides k.
fn due(w: usize, k: usize) -> bool
    ensures { result ≡ is_due w k }
{
    if w == 0 {
        return false;
    }
    k % w == 0
}

// The pairs of a and b that differ, as pairs 11.
fn differing(a: u8, b: u8) -> u8
    ensures { result ≡ differing_byte a b }
{
    let z = a ^ b;
    3 * ((z | (z / 2)) & 85)
}

// Holds every latch too whose value in the last cube a and in b differs.
fn widen(held: &mut [u8; LONGEST_CUBE], a: &[u8], b: &[u8], len: usize)
    requires { (length held.old ≡ longest_cube) × (len ≤ longest_cube) × (len ≤ length a.now) × (len ≤ length b.now) }
    ensures { held.new ≡ paste held.old 0 (widened_bytes len held.old a.now b.now) len }
{
    for (i, byte) in held[..len].iter_mut().enumerate() {
        *byte |= differing(a[i], b[i]);
    }
}

// Which latches are held once b is stored, due or not.
fn held_after(d: bool, held: &mut [u8; LONGEST_CUBE], a: &[u8], b: &[u8], len: usize)
    requires { (length held.old ≡ longest_cube) × (len ≤ longest_cube) × (len ≤ length a.now) × (len ≤ length b.now) }
    ensures { held.new ≡ held_after d len held.old a.now b.now }
{
    if d {
        widen(held, a, b, len);
    }
}

// The mark of a cube, due (widened, 10) or not (plain, 01).
fn mark(d: bool) -> u8
    ensures { result ≡ code (known d) }
{
    if d {
        return 2;
    }
    1
}

// How many cubes are stored, which latches are held unknown, and the latches of the last cube as a record.
#[derive(Clone, Copy)]
pub struct Progress {
    pub count: usize,
    pub held: [u8; LONGEST_CUBE],
    pub last: [u8; LONGEST_CUBE],
}

impl Progress {
    // Stores b as the next cube, widened first where it is due.
    fn advance(mut self, cubes: &mut [u8], len: usize, w: usize, b: &[u8]) -> Self
        requires { (self.count < 65536) × (len ≤ longest_cube) × (self.count * len + len ≤ length cubes.old) × (len ≤ length b.now) × (length self.held ≡ longest_cube) × (length self.last ≡ longest_cube) }
        ensures { Advanced (is_due w self.count) len self cubes.old b.now result cubes.new }
    {
        let k = self.count;
        let d = due(w, k);
        let mut last = self.last;
        held_after(d, &mut self.held, &last, b, len);
        stored::store_kept(b, &self.held, len, &mut last);
        self.last = last;
        stored::store_cube(mark(d), &last, len, cubes, k * len);
        self.count = k + 1;
        self
    }
}

// Where b, given as a record of latches, goes back to after n cubes: to n, an end, where a constraint is 0 in it; else to the first of the n that subsumes it, and where none does the run goes on.
fn goes_to(
    board: &Board<'_>,
    cubes: &[u8],
    len: usize,
    n: usize,
    b: &[u8],
    values: &mut Values,
) -> Option<usize>
    requires { (n * len ≤ length cubes.now) × (len ≤ longest_cube) × (len ≤ length b.now) × IsRecord board.now.counts.latches b.now × SwitchesX board.now.counts values.old.bytes }
    ensures { (result ≡ gone_to (blocked (circuit_of board.now.counts board.now.table.now) (unpack board.now.counts.latches b.now)) n (first n (λ k. covers_from len cubes.now (raised_bytes len 3 b.now) (k * len)))) × SwitchesX board.now.counts values.new.bytes }
{
    if stored::blocked(board, b, values) {
        return Some(n);
    }
    stored::find(cubes, len, n, b)
}

// Goes on from cube 0, which stands in the buffer, and whose latches are `start`, to the cube that falls inside a stored one or in which a constraint is 0, or as far as there is room.
fn follow(
    board: &Board<'_>,
    w: usize,
    len: usize,
    room: usize,
    start: [u8; LONGEST_CUBE],
    values: &mut Values,
    cubes: &mut [u8],
) -> Result<Chain, NoRoom>
    requires { Followable board.now.counts board.now.table.now len room start cubes.old × SwitchesX board.now.counts values.old.bytes }
    ensures { ChainMade board.now.counts board.now.table.now w cubes.old result cubes.new × (1 ≤ made_cubes result) }
{
    let mut b = [0u8; LONGEST_CUBE];
    let mut progress = Progress {
        count: 1,
        held: [0u8; LONGEST_CUBE],
        last: start,
    };
    loop {
        let count = progress.count;
        let last = progress.last;
        stored::reach(board, &last, &progress.held, values, &mut b);
        if let Some(back) = goes_to(board, cubes, len, count, &b, values) {
            return Ok(Chain { cubes: count, back });
        }
        if count == room {
            return Err(NoRoom { cubes: count });
        }
        progress = progress.advance(cubes, len, w, &b);
    }
}

// The cubes of a run, its n and its j; where a constraint is 0 in cube 0 there is none, and the buffer stays as it was.
pub fn make_chain(board: &Board<'_>, w: usize, cubes: &mut [u8]) -> Result<Chain, NoRoom>
    requires { (cube_bytes board.now.counts.latches ≤ length cubes.old) × (length cubes.old ≤ 65536) }
    ensures { ChainMade board.now.counts board.now.table.now w cubes.old result cubes.new }
{
    let mut start = [0u8; LONGEST_CUBE];
    stored::store_start(board.table, board.counts.latches, &mut start);
    let mut values = Values::fresh();
    if stored::blocked(board, &start, &mut values) {
        return Ok(Chain { cubes: 0, back: 0 });
    }
    let len = stored::cube_bytes(board.counts.latches);
    stored::store_cube(mark(false), &start, len, cubes, 0);
    let room = cubes.len() / len;
    follow(board, w, len, room, start, &mut values, cubes)
}
