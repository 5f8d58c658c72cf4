// Replays a stored list of vectors through the public calls that read and write: each line of the list gives one line,
// what the call answered and what it left in each buffer that it was lent.
//
//   read WORDS BYTES TEXT                 a table of WORDS words; the text, `x` behind it up to BYTES
//   readbinary WORDS BYTES TEXT           as `read`, for the binary form
//   readbeginners WORDS BYTES TEXT        as `read`, for beginners' boards
//   any TABLEWORDS LISTWORDS BYTES TEXT   a table and a list of so many words; the text as above
//   write COUNTS WORDS w.. BYTES         the table; a text buffer of BYTES bytes
//   writebinary COUNTS WORDS w.. BYTES   as `write`, for the binary form
//
// In TEXT `/` stands for byte 10, and `\hh` for any byte; what goes beyond BYTES is cut. Crate vectors says the rest.
#![tactic(auto)]

use circuit::{Counts, Refusal};
use vectors::parts::Parts;
use vectors::room::{Bytes, Words};
use vectors::say::Answer;
use vectors::{Complaint, replay};

// ---- read, readbinary, readbeginners

fn read_vector<F: Fn(&[u8], &mut [u16]) -> Result<Counts, Refusal>>(
    answer: Answer,
    mut parts: Parts,
    read: F,
) -> Result<(), Complaint>
    requires { F.IsAlwaysCallable read }
{
    let mut table = Words::new();
    let mut text = Bytes::new();
    parts.room(&mut table)?;
    parts.text(&mut text)?;
    let table = table.lent()?;
    let answered = read(text.given()?, table);
    answer.refused(answered.err());
    answer.counts(answered.ok());
    answer.elements("table", table);
    answer.ends();
    Ok(())
}

// ---- any

fn any_vector(answer: Answer, mut parts: Parts) -> Result<(), Complaint> {
    let mut table = Words::new();
    let mut renumbered = Words::new();
    let mut text = Bytes::new();
    parts.room(&mut table)?;
    parts.room(&mut renumbered)?;
    parts.text(&mut text)?;
    let table = table.lent()?;
    let renumbered = renumbered.lent()?;
    let answered = anyorder::read_any(text.given()?, table, renumbered);
    answer.refused(answered.err());
    answer.counts(answered.ok().map(|drawn| drawn.counts));
    answer.number("M", answered.map_or(0, |drawn| drawn.variables));
    answer.elements("table", table);
    answer.elements("list", renumbered);
    answer.ends();
    Ok(())
}

// ---- write, writebinary

fn write_vector<F: Fn(Counts, &[u16], &mut [u8]) -> Result<usize, Refusal>>(
    answer: Answer,
    mut parts: Parts,
    write: F,
) -> Result<(), Complaint>
    requires { F.IsAlwaysCallable write }
{
    let mut table = Words::new();
    let mut text = Bytes::new();
    let counts = parts.circuit(&mut table)?;
    parts.room(&mut text)?;
    parts.end()?;
    let text = text.lent()?;
    let answered = write(counts, table.given()?, text);
    answer.refused(answered.err());
    answer.number("bytes", answered.unwrap_or(0));
    answer.elements("text", text);
    answer.ends();
    Ok(())
}

// ---- the list

fn answer_vector(answer: Answer, parts: Parts) -> Result<(), Complaint> {
    match answer.name {
        b"read" => read_vector(answer, parts, reader::read),
        b"readbinary" => read_vector(answer, parts, binary_reader::read_binary),
        b"readbeginners" => read_vector(answer, parts, beginner_board::read_beginners),
        b"any" => any_vector(answer, parts),
        b"write" => write_vector(answer, parts, writer::write),
        b"writebinary" => write_vector(answer, parts, binary_writer::write_binary),
        _ => Err(Complaint::NotAVector),
    }
}

fn main(rt: HostRuntime) {
    replay(rt, answer_vector);
}
