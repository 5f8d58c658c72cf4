// What the programs that report on a circuit share (specification, 6): the text on standard input, and the line on a refusal.
#![tactic(auto)]

ghost use Rattle.std.specs.Prelude.{◌≡◌, ◌≤◌, Err, IfErr, IfOk, length};
ghost use Rattle.putting.specs.PutInCode.{Put};
ghost use Rattle.cubes.specs.Answers.{chain_answer};
ghost use Rattle.reporting.specs.Reporting.{refusing};

use cubes::ChainRefusal;
use std::io;
use std::io::{Read, Stderr, Stdin};

// The table of any circuit fits: 2 × 512 + 3 × 64 + 2 × 3,327 words.
pub const TABLE_WORDS: usize = 7870;

// One byte more than the longest text that is read.
pub const DECIDING_BYTES: usize = 60001;

// Of what follows. Any file that is sent by mistake has less, most likely; and so much takes an instant.
const MOST_SKIPPED: usize = 16777216;

// What is read and thrown away at once.
const PIECE: usize = 4096;

// On a refusal its only line is `refused` and the number.
pub fn put_refusal(out: &mut [u8], number: u32) -> usize
    requires { 100 ≤ length out.old }
    ensures { Put out.old 0 (refusing number) out.new result × (result ≤ length out.old) }
{
    let end = rows::put_item(out, 0, b"refused ", number as usize);
    rows::put_bytes(out, end, b"\n")
}

// The number of a chain's refusal: 15 where there was no room for a cube more.
pub fn chain_number(refusal: ChainRefusal) -> u32
    ensures { result ≡ (chain_answer (Err refusal)).number }
{
    match refusal {
        ChainRefusal::Refused(refusal) => refusal.number(),
        ChainRefusal::Full(_) => 15,
    }
}

// Why a program has nothing to print, or has not printed it, on standard error.
pub fn complain(errors: Stderr, why: &[u8]) {
    let _ = errors.write_all(why);
}

// The text to its end, or as much of it as the buffer holds: how many bytes. A read that fails is no end of the text.
pub fn take_text(mut input: Stdin, text: &mut [u8]) -> io::Result<usize>
    ensures { IfOk result (λ bytes. bytes ≤ length text.old) }
{
    let mut bytes = 0;
    while bytes < text.len() {
        let taken = input.read(&mut text[bytes..])?;
        if taken == 0 {
            break;
        }
        bytes += taken;
    }
    Ok(bytes)
}

// A read that failed, behind so many bytes: it is no end of the text.
#[derive(Clone, Copy)]
pub struct Unread {
    pub bytes: usize,
}

// The same where nobody asks why a read failed: how many bytes were taken before it, in place of the system's error.
pub fn take_text_counted(mut input: Stdin, text: &mut [u8]) -> Result<usize, Unread>
    ensures taken { IfOk result (λ bytes. bytes ≤ length text.old) }
    ensures failed { IfErr result (λ unread. unread.bytes ≤ length text.old) }
{
    let mut bytes = 0;
    while bytes < text.len() {
        let Ok(more) = input.read(&mut text[bytes..]) else {
            return Err(Unread { bytes });
        };
        if more == 0 {
            break;
        }
        bytes += more;
    }
    Ok(bytes)
}

// How many bytes a read gives of what is left; none at its end, or where it fails.
fn skip_some(mut input: Stdin) -> usize
    ensures { result ≤ 4096 }
{
    let mut piece = [0u8; PIECE];
    input.read(&mut piece).unwrap_or(0)
}

// What is left, so that whoever sends it can go on to its end; at most MOST_SKIPPED bytes of it, since it may have no end.
pub fn skip_rest(input: Stdin) {
    let mut left = MOST_SKIPPED;
    while left >= PIECE {
        let got = skip_some(input);
        if got == 0 {
            return;
        }
        left -= got;
    }
}
