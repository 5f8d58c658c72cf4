// Replays a stored list of vectors through the public calls that are given a table, or records: each line of the list
// gives one line, what the call answered and what it left in each buffer that it was lent.
//
//   tick COUNTS WORDS w.. STATE b.. SWITCHES b.. NEXT LAMPS   the table, two records; the lengths of the results
//   chain COUNTS WORDS w.. W CUBES                            the table; the interval; the length of the cubes' buffer
//   chainbeginners COUNTS WORDS w.. CUBES                     the table; the length of the cubes' buffer
//   judge COUNTS WORDS w.. CUBES b.. N J VERDICT SETTLED      the table, the cubes, n, j; the lengths of the results
//   cover COUNTS WORDS w.. CUBES b.. N VERDICT                the table, the cubes, their number; the result's length
//   why COUNTS WORDS w.. STATE b.. LAMP WHY                   the table, the state, the lamp's number; the result's length
//   merge FIELDS A b.. B b.. MERGED                            the count of fields, two records; the result's length
//
// Crate vectors says the rest.
#![tactic(auto)]

use circuit::Counts;
use cubes::{Chain, ChainAnswer, ChainRefusal};
use sent::CoverAnswer;
use vectors::parts::Parts;
use vectors::room::{Bytes, Words};
use vectors::say::Answer;
use vectors::{Complaint, replay};

#[inline(never)] // else its buffers lie on the stack beneath those of every other vector
fn tick_vector(answer: Answer, mut parts: Parts) -> Result<(), Complaint> {
    let mut table = Words::new();
    let mut state = Bytes::new();
    let mut switches = Bytes::new();
    let mut next = Bytes::new();
    let mut lamps = Bytes::new();
    let counts = parts.circuit(&mut table)?;
    parts.list(&mut state)?;
    parts.list(&mut switches)?;
    parts.room(&mut next)?;
    parts.room(&mut lamps)?;
    parts.end()?;
    let next = next.lent()?;
    let lamps = lamps.lent()?;
    let answered = tick::tick(
        counts,
        table.given()?,
        state.given()?,
        switches.given()?,
        next,
        lamps,
    );
    answer.refused(answered.err());
    answer.elements("next", next);
    answer.elements("lamps", lamps);
    answer.ends();
    Ok(())
}

// ---- chain, chainbeginners

fn run<F: Fn(Counts, &[u16], &mut [u8]) -> Result<Chain, ChainRefusal>>(
    answer: Answer,
    counts: Counts,
    table: &Words,
    mut parts: Parts,
    chain: F,
) -> Result<(), Complaint>
    requires { F.IsAlwaysCallable chain }
{
    let mut cubes = Bytes::new();
    parts.room(&mut cubes)?;
    parts.end()?;
    let cubes = cubes.lent()?;
    let answered = ChainAnswer::from(chain(counts, table.given()?, cubes));
    answer.opens(answered.number);
    answer.number("n", answered.cubes);
    answer.number("j", answered.back);
    answer.elements("cubes", cubes);
    answer.ends();
    Ok(())
}

fn chain_vector(answer: Answer, mut parts: Parts) -> Result<(), Complaint> {
    let mut table = Words::new();
    let counts = parts.circuit(&mut table)?;
    let w = parts.number()?;
    run(answer, counts, &table, parts, |counts, table, cubes| {
        chained::chain(counts, table, w, cubes)
    })
}

fn chain_beginners_vector(answer: Answer, mut parts: Parts) -> Result<(), Complaint> {
    let mut table = Words::new();
    let counts = parts.circuit(&mut table)?;
    run(answer, counts, &table, parts, |counts, table, cubes| {
        Ok(beginner_board::chain_beginners(counts, table, cubes)?)
    })
}

// ---- judge, cover

fn judge_vector(answer: Answer, mut parts: Parts) -> Result<(), Complaint> {
    let mut table = Words::new();
    let mut cubes = Bytes::new();
    let mut verdict = Bytes::new();
    let mut settled = Bytes::new();
    let counts = parts.circuit(&mut table)?;
    parts.list(&mut cubes)?;
    let n = parts.number()?;
    let j = parts.number()?;
    parts.room(&mut verdict)?;
    parts.room(&mut settled)?;
    parts.end()?;
    let verdict = verdict.lent()?;
    let settled = settled.lent()?;
    let answered = judged::judge(
        counts,
        table.given()?,
        cubes.given()?,
        n,
        j,
        verdict,
        settled,
    );
    answer.refused(answered.err());
    answer.number("s", answered.unwrap_or(0));
    answer.elements("verdict", verdict);
    answer.elements("settled", settled);
    answer.ends();
    Ok(())
}

fn cover_vector(answer: Answer, mut parts: Parts) -> Result<(), Complaint> {
    let mut table = Words::new();
    let mut cubes = Bytes::new();
    let mut verdict = Bytes::new();
    let counts = parts.circuit(&mut table)?;
    parts.list(&mut cubes)?;
    let n = parts.number()?;
    parts.room(&mut verdict)?;
    parts.end()?;
    let verdict = verdict.lent()?;
    let answered = CoverAnswer::from(sent::cover(
        counts,
        table.given()?,
        cubes.given()?,
        n,
        verdict,
    ));
    answer.opens(answered.number);
    answer.number("cube", answered.cube);
    answer.elements("verdict", verdict);
    answer.ends();
    Ok(())
}

// ---- why, merge

#[inline(never)] // else its buffers lie on the stack beneath those of every other vector
fn why_vector(answer: Answer, mut parts: Parts) -> Result<(), Complaint> {
    let mut table = Words::new();
    let mut state = Bytes::new();
    let mut why = Bytes::new();
    let counts = parts.circuit(&mut table)?;
    parts.list(&mut state)?;
    let lamp = parts.number()?;
    parts.room(&mut why)?;
    parts.end()?;
    let why = why.lent()?;
    let answered = why::why(counts, table.given()?, state.given()?, lamp, why);
    answer.refused(answered.err());
    answer.elements("why", why);
    answer.ends();
    Ok(())
}

fn merge_vector(answer: Answer, mut parts: Parts) -> Result<(), Complaint> {
    let mut a = Bytes::new();
    let mut b = Bytes::new();
    let mut merged = Bytes::new();
    let fields = parts.number()?;
    parts.list(&mut a)?;
    parts.list(&mut b)?;
    parts.room(&mut merged)?;
    parts.end()?;
    let merged = merged.lent()?;
    let answered = merging::merge(fields, a.given()?, b.given()?, merged);
    answer.refused(answered.err());
    answer.elements("merged", merged);
    answer.ends();
    Ok(())
}

// ---- the list

fn answer_vector(answer: Answer, parts: Parts) -> Result<(), Complaint> {
    match answer.name {
        b"tick" => tick_vector(answer, parts),
        b"chain" => chain_vector(answer, parts),
        b"chainbeginners" => chain_beginners_vector(answer, parts),
        b"judge" => judge_vector(answer, parts),
        b"cover" => cover_vector(answer, parts),
        b"why" => why_vector(answer, parts),
        b"merge" => merge_vector(answer, parts),
        _ => Err(Complaint::NotAVector),
    }
}

fn main(rt: HostRuntime) {
    replay(rt, answer_vector);
}
