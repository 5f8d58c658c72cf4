// The report on a text (specification, 6), as the programs print it.
#![tactic(auto)]

ghost use Rattle.std.specs.Prelude.{◌≡◌, ◌++◌, ◌+◌, ◌*◌, ◌≤◌, length, take, drop};
ghost use Rattle.three.specs.Record.{unpack};
ghost use Rattle.circuit.specs.Refusal.{refusal};
ghost use Rattle.circuit.specs.Table.{verdicts, circuit_tests};
ghost use Rattle.putting.specs.PutInCode.{Put};
ghost use Rattle.rows.specs.declared.Row.{Row};
ghost use Rattle.rows.specs.Rows.{rows};
ghost use Rattle.reported.specs.Report.{closing, ending, opening, run_report, Reported};
ghost use Rattle.reporting.specs.Reporting.{of_run};

use circuit::Counts;
use cubes::Chain;
use reporting::TABLE_WORDS;
use rows::Row;

// Takes w = 16 and a cube buffer of 65,536 bytes.
const INTERVAL: usize = 16;

const CUBE_BYTES: usize = 65536;

// The report on any circuit fits: 100 bytes for the first line, 34 for each lamp, bad state and latch.
pub const REPORT_BYTES: usize = 22000;

// The record of the most verdicts: 64 lamps and 64 bad states.
const LONGEST_VERDICT: usize = 32;

// One line on closure with n, j, s.
fn put_closing(out: &mut [u8], n: usize, j: usize, s: usize) -> usize
    requires { 100 ≤ length out.old }
    ensures { Put out.old 0 (closing n j s) out.new result × (result ≤ 100) }
{
    let back = rows::put_item(out, 0, b"cubes ", n);
    let settled = rows::put_item(out, back, b" back ", j);
    let end = rows::put_item(out, settled, b" settled ", s);
    rows::put_bytes(out, end, b"\n")
}

// One line on an end with n.
fn put_ending(out: &mut [u8], n: usize) -> usize
    requires { 100 ≤ length out.old }
    ensures { Put out.old 0 (ending n) out.new result × (result ≤ 100) }
{
    let end = rows::put_item(out, 0, b"cubes ", n);
    rows::put_bytes(out, end, b" ended\n")
}

// The first line: a run that stops with j = n has ended.
fn put_opening(out: &mut [u8], n: usize, j: usize, s: usize) -> usize
    requires { 100 ≤ length out.old }
    ensures { Put out.old 0 (opening n j s) out.new result × (result ≤ 100) }
{
    if j == n {
        return put_ending(out, n);
    }
    put_closing(out, n, j, s)
}

// Closure or end; then each lamp; then each bad state; then each latch.
fn put_stopped(
    out: &mut [u8],
    counts: Counts,
    chain: Chain,
    s: usize,
    verdict: &[u8],
    settled: &[u8],
) -> usize
    requires { (100 + 34 * verdicts counts + 34 * counts.latches ≤ length out.old) × (counts.lamps ≤ 64) × (verdicts counts ≤ 4 * length verdict.now) × (counts.latches ≤ 4 * length settled.now) }
    ensures { Put out.old 0 (opening chain.cubes chain.back s ++ (rows Row.Lamp 0 (take counts.lamps (unpack (verdicts counts) verdict.now)) ++ (rows Row.Bad 0 (drop counts.lamps (unpack (verdicts counts) verdict.now)) ++ rows Row.Latch 0 (unpack counts.latches settled.now)))) out.new result × (result ≤ length out.old) }
{
    let lamps = put_opening(out, chain.cubes, chain.back, s);
    let bads = rows::put_rows(out, lamps, Row::Lamp, verdict, 0, counts.lamps);
    let latches = rows::put_rows(out, bads, Row::Bad, verdict, counts.lamps, counts.bads);
    rows::put_rows(out, latches, Row::Latch, settled, 0, counts.latches)
}

// The report on a circuit that was read. What the chain leaves is never refused by the judge.
#[tactic(auto, using(crate::proofs::Reporting::report_room))]
fn report_run(counts: Counts, table: &[u16], out: &mut [u8; REPORT_BYTES]) -> usize
    requires { 0 ≡ refusal (circuit_tests counts table.now) }
    ensures { Put out.old 0 (of_run run_report (record { counts = counts; words = table.now })) out.new result × (result ≤ length out.old) }
{
    let mut cubes = [0u8; CUBE_BYTES];
    let chain = match chained::chain(counts, table, INTERVAL, &mut cubes) {
        Ok(chain) => chain,
        Err(refusal) => return reporting::put_refusal(out, reporting::chain_number(refusal)),
    };
    let mut verdict = [0u8; LONGEST_VERDICT];
    let mut settled = [0u8; 128];
    let s = judged::judge(
        counts,
        table,
        &cubes,
        chain.cubes,
        chain.back,
        &mut verdict,
        &mut settled,
    )
    .unwrap();
    put_stopped(out, counts, chain, s, &verdict, &settled)
}

// The report on a text, at the front of the buffer; how many bytes it has. Nothing is relied on: any text may be handed in.
pub fn report(text: &[u8], out: &mut [u8; REPORT_BYTES]) -> usize
    ensures { Reported text.now out.old result out.new }
{
    let mut table = [0u16; TABLE_WORDS];
    match reader::read(text, &mut table) {
        Ok(counts) => report_run(counts, &table, out),
        Err(refusal) => reporting::put_refusal(out, refusal.number()),
    }
}
