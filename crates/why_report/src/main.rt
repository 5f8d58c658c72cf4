// Why a lamp stays dark or lit (specification, 6): the lamp's number as the argument, a circuit's text on standard input, the lines on standard output.
#![tactic(auto)]

ghost use Rattle.std.specs.Prelude.{[], ◌≡◌, ◌+◌, ◌≤◌, ◌<◌, None, IfOk, IfSome, length};
ghost use Rattle.three.specs.Lists.{over};
ghost use Rattle.three.specs.Record.{pack};
ghost use Rattle.circuit.specs.Refusal.{refusal};
ghost use Rattle.circuit.specs.Table.{circuit_of, circuit_tests};
ghost use Rattle.cubes.specs.Buffer.{cube_in};
ghost use Rattle.reporting.specs.Reporting.{refusing, of_run, Piece};
ghost use Rattle.why_report.specs.WhyReport.{explained, run_explained, why_report_of};
ghost use Rattle.why_report.specs.WhyReportInCode.{explanation_in, lines_from, Judgeable, Explains, Ready, GroupEnds, Begins};

use circuit::{Counts, Refusal};
use lines::Ending;
use reporting::{DECIDING_BYTES, TABLE_WORDS, complain};
use rows::Row;
use std::env::Env;
use std::io;
use std::io::Stdout;

// Takes w = 16 and a cube buffer of 65,536 bytes, as the report does.
const INTERVAL: usize = 16;

const CUBE_BYTES: usize = 65536;

// Any line fits: 100 bytes for the cubes and the end, 32 for each latch.
const LINE_BYTES: usize = 20000;

// The record of the most latches.
const LONGEST_RECORD: usize = 128;

// The record of the most verdicts: 64 lamps and 64 bad states.
const LONGEST_VERDICT: usize = 32;

// A lamp that is known in each of n stored cubes of a circuit that was read.
#[derive(Clone, Copy)]
struct KnownLamp<'a> {
    counts: Counts,
    table: &'a [u16],
    cubes: &'a [u8],
    n: usize,
    lamp: usize,
    ghost ready: { Ready counts table.now cubes.now lamp n },
}

// A line in the buffer: how many bytes it has, and the cube after its last.
#[derive(Clone, Copy)]
struct Group {
    bytes: usize,
    next: usize,
}

impl KnownLamp<'_> {
    // The explanation in the cube of this number: the one place that takes a stored cube for a state, its mark left off.
    fn explain_cube(&self, k: usize, out: &mut [u8; LONGEST_RECORD])
        requires { (k < self.now.n) × (length out.old ≡ 128) }
        ensures { (out.new ≡ over (pack (explanation_in self.now.counts self.now.table.now self.now.cubes.now self.now.lamp k)) out.old) × (length out.new ≡ 128) }
    {
        let at = k * stored::cube_bytes(self.counts.latches);
        let mut state = [0u8; LONGEST_RECORD];
        stored::store_latches(self.counts.latches, self.cubes, at, &mut state);
        why::why(self.counts, self.table, &state, self.lamp, out).unwrap();
    }

    // The last cube of the group that begins with this one, whose explanation is in `why`.
    fn group_end(&self, from: usize, why: &[u8; LONGEST_RECORD]) -> usize
        requires { (from < self.now.n) × Explains self.now.counts self.now.table.now self.now.cubes.now self.now.lamp from why.now }
        ensures { GroupEnds self.now.counts self.now.table.now self.now.cubes.now self.now.lamp self.now.n from result }
    {
        let n = self.n;
        let mut k = from;
        let mut next = [0u8; LONGEST_RECORD];
        while k + 1 < n {
            self.explain_cube(k + 1, &mut next);
            if !reasons::same_fields(why, &next, self.counts.latches) {
                return k;
            }
            k += 1;
        }
        k
    }

    // The line of the group that begins with this cube.
    fn put_group(&self, from: usize, out: &mut [u8; LINE_BYTES]) -> Group
        requires { from < self.now.n }
        ensures { Piece (lines_from self.now.counts self.now.table.now self.now.cubes.now self.now.lamp self.now.n from) (lines_from self.now.counts self.now.table.now self.now.cubes.now self.now.lamp self.now.n result.next) out.old result.bytes out.new × (from < result.next) × (result.next ≤ self.now.n) }
    {
        let mut why = [0u8; LONGEST_RECORD];
        self.explain_cube(from, &mut why);
        let last = self.group_end(from, &why);
        let bytes = reasons::put_line(out, from, last, &why, self.counts.latches);
        Group {
            bytes,
            next: last + 1,
        }
    }

    // Prints that line; the cube after its last.
    fn print_group(&self, output: Stdout, from: usize) -> io::Result<usize>
        requires { from < self.now.n }
        ensures { IfOk result (λ next. (from < next) × (next ≤ self.now.n)) }
    {
        let mut out = [0u8; LINE_BYTES];
        let group = self.put_group(from, &mut out);
        let bytes = group.bytes;
        output.write_all(&out[..bytes])?;
        Ok(group.next)
    }

    // The lines of all cubes, group by group.
    fn print_groups(&self, output: Stdout) -> io::Result<()> {
        let mut from = 0;
        while from < self.n {
            from = self.print_group(output, from)?;
        }
        Ok(())
    }
}

// What lines follow of: stored cubes of a circuit, and how many.
#[derive(Clone, Copy)]
struct Following {
    counts: Counts,
    cubes: usize,
}

// The first line in the buffer: how many bytes it has, and what follows, if anything.
#[derive(Clone, Copy)]
struct Begun {
    bytes: usize,
    following: Option<Following>,
}

// The lamp's verdict in n cubes that a chain left.
fn put_verdict(
    counts: Counts,
    table: &[u16],
    cubes: &[u8],
    n: usize,
    j: usize,
    lamp: usize,
    out: &mut [u8; LINE_BYTES],
) -> Begun
    requires { Judgeable counts table.now cubes.now n j × (lamp < counts.lamps) }
    ensures { Begins table.now cubes.now (explained lamp (circuit_of counts table.now) (cube_in counts.latches cubes.now) n) lamp out.old result out.new }
{
    let mut verdict = [0u8; LONGEST_VERDICT];
    let mut settled = [0u8; LONGEST_RECORD];
    judged::judge(counts, table, cubes, n, j, &mut verdict, &mut settled).unwrap();
    let field = three::field(&verdict, lamp);
    let bytes = rows::put_row(out, 0, Row::Lamp, lamp, field);
    if field == 0 {
        return Begun {
            bytes,
            following: None,
        };
    }
    Begun {
        bytes,
        following: Some(Following { counts, cubes: n }),
    }
}

// A refusal: nothing follows.
fn begin_refused(number: u32, out: &mut [u8; LINE_BYTES]) -> Begun
    ensures { Piece (refusing number) [] out.old result.bytes out.new × (result.following ≡ None) }
{
    Begun {
        bytes: reporting::put_refusal(out, number),
        following: None,
    }
}

// The first line for a circuit that was read; its cubes are left in the buffer.
fn begin_run(
    counts: Counts,
    table: &[u16],
    lamp: usize,
    cubes: &mut [u8; CUBE_BYTES],
    out: &mut [u8; LINE_BYTES],
) -> Begun
    requires { (0 ≡ refusal (circuit_tests counts table.now)) × (length cubes.old ≡ 65536) }
    ensures { Begins table.now cubes.new (of_run (run_explained lamp) (record { counts = counts; words = table.now })) lamp out.old result out.new }
{
    match chained::chain(counts, table, INTERVAL, cubes) {
        Ok(chain) => {
            if lamp >= counts.lamps {
                return begin_refused(Refusal::NoSuchLamp.number(), out);
            }
            put_verdict(counts, table, cubes, chain.cubes, chain.back, lamp, out)
        }
        Err(refusal) => begin_refused(reporting::chain_number(refusal), out),
    }
}

// The first line for a text. Nothing is relied on: any text and any number may be handed in.
fn begin(
    text: &[u8],
    lamp: usize,
    table: &mut [u16; TABLE_WORDS],
    cubes: &mut [u8; CUBE_BYTES],
    out: &mut [u8; LINE_BYTES],
) -> Begun
    requires { (length table.old ≡ 7870) × (length cubes.old ≡ 65536) }
    ensures { Begins table.new cubes.new (why_report_of lamp text.now) lamp out.old result out.new }
{
    match reader::read(text, table) {
        Ok(counts) => begin_run(counts, table, lamp, cubes, out),
        Err(refusal) => begin_refused(refusal.number(), out),
    }
}

// What is printed for a text and a lamp, on standard output.
fn print_why(output: Stdout, text: &[u8], lamp: usize) -> io::Result<()> {
    let mut table = [0u16; TABLE_WORDS];
    let mut cubes = [0u8; CUBE_BYTES];
    let mut out = [0u8; LINE_BYTES];
    let begun = begin(text, lamp, &mut table, &mut cubes, &mut out);
    let bytes = begun.bytes;
    output.write_all(&out[..bytes])?;
    match begun.following {
        None => Ok(()),
        Some(following) => {
            let known = KnownLamp {
                counts: following.counts,
                table: &table,
                cubes: &cubes,
                n: following.cubes,
                lamp,
            };
            known.print_groups(output)
        }
    }
}

// How long the argument is; none where there is none or the buffer does not hold it and a byte more.
fn take_word(rt: &impl Env, word: &mut [u8; 8]) -> Option<usize>
    ensures { IfSome result (λ bytes. bytes < 8) }
{
    match rt.arg(1, word) {
        Ok(bytes) if bytes < 8 => Some(bytes),
        _ => None,
    }
}

// The lamp that the argument names, where it is a number and nothing else.
fn take_lamp(rt: &impl Env) -> Option<usize> {
    let mut word = [0u8; 8];
    let bytes = take_word(rt, &mut word)?;
    word[bytes] = b'\n';
    let found = lines::line(&word, 0, Ending::Newline, 1);
    if found.next != bytes + 1 {
        return None;
    }
    Some(found.entry(0))
}

fn main(rt: HostRuntime) {
    let errors = rt.stderr();
    let Some(lamp) = take_lamp(&rt) else {
        complain(errors, b"why_report: the argument is not a lamp's number\n");
        return;
    };
    let mut text = [0u8; DECIDING_BYTES];
    let Ok(bytes) = reporting::take_text_counted(rt.stdin(), &mut text) else {
        complain(
            errors,
            b"why_report: standard input was not read to its end\n",
        );
        return;
    };
    if print_why(rt.stdout(), &text[..bytes], lamp).is_err() {
        complain(errors, b"why_report: the lines were not written\n");
    }
}
