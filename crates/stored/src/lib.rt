// Cubes in a buffer: cube 0, the next state of a stored cube, constraints, the search (specification, 5.1 to 5.3).
#![tactic(auto)]

ghost use Rattle.std.specs.Prelude.{◌≡◌, suc, ◌+◌, ◌*◌, ◌-◌, ◌<◌, ◌≤◌, length, get_or, drop, replicate};
ghost use Rattle.std.proofs.Math.Seq.{paste};
ghost use Rattle.three.specs.Lists.{every, first, over};
ghost use Rattle.three.specs.Value.{unknown, code};
ghost use Rattle.three.specs.Record.{bytes_for, byte_at, pack, unpack};
ghost use Rattle.three.specs.RecordInCode.{IsRecord};
ghost use Rattle.circuit.specs.Refusal.{refusal};
ghost use Rattle.circuit.specs.Answer.{answered};
ghost use Rattle.circuit.specs.Table.{constraints_at, circuit_of};
ghost use Rattle.circuit.specs.RulesInCode.{Bounded};
ghost use Rattle.pass.specs.ValuesInCode.{values_of, literal_values};
ghost use Rattle.cubes.specs.Run.{next_cube, some_low, blocked as is_blocked, start_field, start as start_of};
ghost use Rattle.cubes.specs.Buffer.{cube_bytes, cube_of, sound_cube, sound_in};
ghost use Rattle.cubes.specs.BufferInCode.{longest_cube, IsCube, raised_byte, lowered_byte};
ghost use Rattle.cubes.specs.HeldInCode.{kept_byte};
ghost use Rattle.cubes.specs.Given.{cube_tests};
ghost use Rattle.stored.specs.CubesInCode.{start_fields, raised_bytes, kept_bytes, covers_from, FoundFirst, SwitchesX, Settled};

use circuit::{Board, Counts, Refusal};
use pass::Values;

// The record of a cube with the most latches: 512, and its mark.
pub const LONGEST_CUBE: usize = 129;

// How many bytes a stored cube takes.
pub fn cube_bytes(latches: usize) -> usize
    requires { latches ≤ 512 }
    ensures { result ≡ cube_bytes latches }
{
    three::record_length(latches + 1)
}

// Field number i of cube 0.
fn start_field(table: &[u16], i: usize) -> u8
    requires { 2 * i + 1 < length table.now }
    ensures { result ≡ code (start_field (get_or table.now (2 * i + 1) 0)) }
{
    match table[2 * i + 1] {
        0 => 1,
        1 => 2,
        _ => 0,
    }
}

// Cube 0 is the resets: its latches, as a record.
pub fn store_start(table: &[u16], count: usize, out: &mut [u8])
    requires { (2 * count ≤ length table.now) × (count ≤ 512) × (bytes_for count ≤ length out.old) }
    ensures { out.new ≡ over (pack (start_fields table.now count)) out.old }
{
    three::store_fields(count, |i| start_field(table, i), out);
}

// A byte of fields that are moved up by one: the last field of the byte above comes in.
fn raised(above: u8, byte: u8) -> u8
    ensures { result ≡ raised_byte above byte }
{
    above % 4 * 64 + byte / 4
}

// A cube's record of `len` bytes, into `out` from byte `at` on: its mark, and then its latches, which are given as a record.
pub fn store_cube(mark: u8, latches: &[u8], len: usize, out: &mut [u8], at: usize)
    requires { (len ≤ length latches.now) × (at + len ≤ length out.old) }
    ensures { out.new ≡ paste out.old at (raised_bytes len mark latches.now) len }
{
    let mut above = mark;
    for (i, byte) in out[at..at + len].iter_mut().enumerate() {
        *byte = raised(above, latches[i]);
        above = latches[i];
    }
}

// Such a record by itself.
pub fn marked(mark: u8, latches: &[u8], len: usize) -> [u8; LONGEST_CUBE]
    requires { (len ≤ longest_cube) × (len ≤ length latches.now) }
    ensures { result ≡ paste (replicate longest_cube 0) 0 (raised_bytes len mark latches.now) len }
{
    let mut cube = [0u8; LONGEST_CUBE];
    store_cube(mark, latches, len, &mut cube, 0);
    cube
}

// A byte of fields that are moved down by one: the first field of the byte below comes in.
fn lowered(byte: u8, below: u8) -> u8
    ensures { result ≡ lowered_byte byte below }
{
    byte % 64 * 4 + below / 64
}

// Byte number k of the latches of the cube at byte `at`; below the last byte of its record is nothing.
fn latch_byte(latches: usize, cubes: &[u8], at: usize, len: usize, k: usize) -> u8
    requires { (len ≡ cube_bytes latches) × (at + len ≤ length cubes.now) × IsRecord (suc latches) (drop at cubes.now) × (k < len) }
    ensures { result ≡ byte_at (cube_of latches (drop at cubes.now)) k }
{
    let byte = cubes[at + k];
    if k + 1 == len {
        return lowered(byte, 0);
    }
    lowered(byte, cubes[at + k + 1])
}

// The latches of the cube at byte `at` as a record, into the front of `out`: its mark is left off.
pub fn store_latches(latches: usize, cubes: &[u8], at: usize, out: &mut [u8])
    requires { (latches ≤ 512) × (at ≤ length cubes.now) × IsRecord (suc latches) (drop at cubes.now) × (bytes_for latches ≤ length out.old) }
    ensures { out.new ≡ over (pack (cube_of latches (drop at cubes.now))) out.old }
{
    let len = cube_bytes(latches);
    for (k, byte) in out[..three::record_length(latches)].iter_mut().enumerate() {
        *byte = latch_byte(latches, cubes, at, len, k);
    }
}

// A record's byte with its held fields set to X.
fn kept(byte: u8, held: u8) -> u8
    ensures { result ≡ kept_byte byte held }
{
    byte & (255 - held)
}

// The record b with held latches set to X, into the front of `out`.
pub fn store_kept(b: &[u8], held: &[u8], len: usize, out: &mut [u8])
    requires { (len ≤ length held.now) × (len ≤ length b.now) × (len ≤ length out.old) }
    ensures { out.new ≡ paste out.old 0 (kept_bytes len held.now b.now) len }
{
    for (i, byte) in out[..len].iter_mut().enumerate() {
        *byte = kept(b[i], held[i]);
    }
}

// 14 does not refuse the cube at byte `at`: its mark is not 00, and its record is sound.
fn cube_sound(cubes: &[u8], at: usize, latches: usize) -> bool
    requires { (latches ≤ 512) × (at + cube_bytes latches ≤ length cubes.now) }
    ensures { result ≡ sound_cube latches (drop at cubes.now) }
{
    if cubes[at] < 64 {
        return false;
    }
    three::sound(&cubes[at..], latches + 1)
}

// 14 refuses none of the first n cubes.
fn cubes_sound(latches: usize, cubes: &[u8], n: usize) -> bool
    requires { (latches ≤ 512) × (n * cube_bytes latches ≤ length cubes.now) }
    ensures { result ≡ every n (sound_in latches cubes.now) }
{
    let len = cube_bytes(latches);
    for k in 0..n {
        if !cube_sound(cubes, k * len, latches) {
            return false;
        }
    }
    true
}

// The refusals of n cubes that are given, in order: 10, 14.
pub fn cubes_refusal(counts: Counts, cubes: &[u8], n: usize) -> Result<(), Refusal>
    requires { Bounded counts }
    ensures { answered result ≡ refusal (cube_tests counts cubes.now n) }
{
    if n > cubes.len() / cube_bytes(counts.latches) {
        return Err(Refusal::TooShort);
    }
    if !cubes_sound(counts.latches, cubes, n) {
        return Err(Refusal::Unsound);
    }
    Ok(())
}

// One pass over the cube at byte `at`, with all switches X.
pub fn settle_cube(board: &Board<'_>, cubes: &[u8], at: usize, values: &mut Values)
    requires { (at ≤ length cubes.now) × IsCube board.now.counts.latches (drop at cubes.now) × SwitchesX board.now.counts values.old.bytes }
    ensures { Settled board.now.counts board.now.table.now (cube_of board.now.counts.latches (drop at cubes.now)) values.new.bytes }
{
    let mut state = [0u8; LONGEST_CUBE];
    store_latches(board.counts.latches, cubes, at, &mut state);
    pass::settle_state(board, &state, values);
}

// Some constraint is 0 in the values that a pass left.
fn constraint_low(board: &Board<'_>, values: &Values) -> bool
    ensures { result ≡ some_low (literal_values (values_of values.now.bytes) board.now.table.now (constraints_at board.now.counts) 1 board.now.counts.constraints) }
{
    let first = board.counts.constraints_at();
    let words = &board.table[first..first + board.counts.constraints];
    words.iter().any(|&word| pass::literal(values, word) == 1)
}

// Some constraint is 0 in a cube whose latches are given as a record, with all switches X; where there is none no pass is made.
pub fn blocked(board: &Board<'_>, latches: &[u8], values: &mut Values) -> bool
    requires { IsRecord board.now.counts.latches latches.now × SwitchesX board.now.counts values.old.bytes }
    ensures { (result ≡ is_blocked (circuit_of board.now.counts board.now.table.now) (unpack board.now.counts.latches latches.now)) × SwitchesX board.now.counts values.new.bytes }
{
    if board.counts.constraints == 0 {
        return false;
    }
    pass::settle_state(board, latches, values);
    constraint_low(board, values)
}

// Some constraint is 0 in cube 0.
pub fn start_blocked(board: &Board<'_>) -> bool
    ensures { result ≡ is_blocked (circuit_of board.now.counts board.now.table.now) (start_of (circuit_of board.now.counts board.now.table.now)) }
{
    if board.counts.constraints == 0 {
        return false;
    }
    let mut start = [0u8; LONGEST_CUBE];
    store_start(board.table, board.counts.latches, &mut start);
    let mut values = Values::fresh();
    blocked(board, &start, &mut values)
}

// The run's b after a cube: the next state of its latches, which are given as a record, with held latches set to X.
pub fn reach(
    board: &Board<'_>,
    last: &[u8],
    held: &[u8],
    values: &mut Values,
    b: &mut [u8; LONGEST_CUBE],
)
    requires { IsRecord board.now.counts.latches last.now × (cube_bytes board.now.counts.latches ≤ length held.now) × SwitchesX board.now.counts values.old.bytes × (length b.old ≡ longest_cube) }
    ensures { SwitchesX board.now.counts values.new.bytes × (b.new ≡ paste b.old 0 (kept_bytes (cube_bytes board.now.counts.latches) held.now (pack (next_cube (circuit_of board.now.counts board.now.table.now) (unpack board.now.counts.latches last.now)))) (cube_bytes board.now.counts.latches)) }
{
    pass::settle_state(board, last, values);
    let mut next = [0u8; LONGEST_CUBE];
    pass::store(values, board.table, 0, 2, board.counts.latches, &mut next);
    store_kept(&next, held, cube_bytes(board.counts.latches), b);
}

// The search is for the first stored cube that covers b: its number, where one of the n does.
fn search(cubes: &[u8], len: usize, n: usize, b: &[u8]) -> Option<usize>
    requires { (n * len ≤ length cubes.now) × (len ≤ length b.now) }
    ensures { FoundFirst n (first n (λ k. covers_from len cubes.now b.now (k * len))) result }
{
    let mut k = 0;
    let mut at = 0;
    'stored: loop {
        if k == n {
            break None;
        }
        let mut i = 0;
        while i < len {
            let c = cubes[at + i];
            let d = b[i];
            if c & d != c {
                k += 1;
                at += len;
                continue 'stored;
            }
            i += 1;
        }
        break Some(k);
    }
}

// No bit of the cube at byte `at` is missing in b.
pub fn covers(cubes: &[u8], at: usize, len: usize, b: &[u8]) -> bool
    requires { (at + len ≤ length cubes.now) × (len ≤ length b.now) }
    ensures { result ≡ covers_from len cubes.now b.now at }
{
    cubes[at..at + len].iter().zip(b).all(|(c, d)| c & d == *c)
}

// In the mark's place of what is looked for: 11 has the bits of any mark, so that marks are never compared.
const ANY_MARK: u8 = 3;

// The first of the n cubes that subsumes the latches given as a record.
pub fn find(cubes: &[u8], len: usize, n: usize, latches: &[u8]) -> Option<usize>
    requires { (n * len ≤ length cubes.now) × (len ≤ longest_cube) × (len ≤ length latches.now) }
    ensures { FoundFirst n (first n (λ k. covers_from len cubes.now (raised_bytes len 3 latches.now) (k * len))) result }
{
    let b = marked(ANY_MARK, latches, len);
    search(cubes, len, n, &b)
}

// The cube at byte `at` subsumes the latches given as a record.
pub fn subsumes(cubes: &[u8], at: usize, len: usize, latches: &[u8]) -> bool
    requires { (at + len ≤ length cubes.now) × (len ≤ longest_cube) × (len ≤ length latches.now) }
    ensures { result ≡ covers_from len cubes.now (raised_bytes len 3 latches.now) at }
{
    let b = marked(ANY_MARK, latches, len);
    covers(cubes, at, len, &b)
}
