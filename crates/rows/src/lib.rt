// The rows of a report, put into a buffer (specification, 6).
#![tactic(auto)]

ghost use Rattle.std.specs.Prelude.{◌+◌, ◌*◌, ◌≤◌, ◌<◌, ◌++◌, length, drop};
ghost use Rattle.three.specs.Value.{decode};
ghost use Rattle.three.specs.Record.{unpack};
ghost use Rattle.putting.specs.PutInCode.{Put};
ghost use Rattle.rows.specs.declared.Row.{Row};
ghost use Rattle.rows.specs.Rows.{item, said, verdict_said, row as row_text, rows};
ghost use Rattle.text.specs.Decimal.{decimal};

// What a line of the report is about.
#[derive(Clone, Copy)]
pub enum Row {
    Lamp,
    Bad,
    Latch,
}

pub fn put_bytes(out: &mut [u8], at: usize, text: &[u8]) -> usize
    requires { at + length text.now ≤ length out.old }
    ensures { Put out.old at text.now out.new result }
{
    let end = at + text.len();
    out[at..end].copy_from_slice(text);
    end
}

// A number of any length, by a call for each digit.
fn put_long(text: &mut [u8], at: usize, n: usize) -> usize
    requires { at + length (decimal n) ≤ length text.old }
    ensures { Put text.old at (decimal n) text.new result }
{
    if n < 10 {
        return putting::put_one(text, at, n);
    }
    let last = put_long(text, at, n / 10);
    putting::put_digit(text, last, n % 10)
}

// A name and its number, which has at most 20 digits.
pub fn put_item(out: &mut [u8], at: usize, name: &[u8], n: usize) -> usize
    requires { at + length name.now + 20 ≤ length out.old }
    ensures { Put out.old at (item name.now n) out.new result × (result ≤ at + length name.now + 20) }
{
    let number = put_bytes(out, at, name);
    put_long(out, number, n)
}

// What is said of a field: of 0, of 1, and of X.
pub fn put_said(out: &mut [u8], at: usize, field: u8, off: &[u8], on: &[u8], either: &[u8]) -> usize
    requires { (at + length off.now ≤ length out.old) × (at + length on.now ≤ length out.old) × (at + length either.now ≤ length out.old) }
    ensures { Put out.old at (said off.now on.now either.now (decode field)) out.new result }
{
    match field {
        0 => put_bytes(out, at, either),
        1 => put_bytes(out, at, off),
        _ => put_bytes(out, at, on),
    }
}

// A name with its number, and never, always or open.
fn put_verdict(out: &mut [u8], at: usize, name: &[u8], i: usize, field: u8) -> usize
    requires { at + length name.now + 28 ≤ length out.old }
    ensures { Put out.old at (item name.now i ++ verdict_said (decode field)) out.new result × (result ≤ at + length name.now + 28) }
{
    let word = put_item(out, at, name, i);
    put_said(out, word, field, b" never\n", b" always\n", b" open\n")
}

// Each lamp, numbered from 0, with never, always or open; then each bad state alike; then each latch, numbered from 0, with its settled value, 0 or 1, or `-`:
// the line of number i.
pub fn put_row(out: &mut [u8], at: usize, row: Row, i: usize, field: u8) -> usize
    requires { at + 34 ≤ length out.old }
    ensures { Put out.old at (row_text row i (decode field)) out.new result × (result ≤ at + 34) }
{
    match row {
        Row::Lamp => put_verdict(out, at, b"lamp ", i, field),
        Row::Bad => put_verdict(out, at, b"bad ", i, field),
        Row::Latch => {
            let word = put_item(out, at, b"latch ", i);
            put_said(out, word, field, b" 0\n", b" 1\n", b" -\n")
        }
    }
}

// A line for each of so many fields of a record, from field number `first` on.
pub fn put_rows(
    out: &mut [u8],
    start: usize,
    row: Row,
    fields: &[u8],
    first: usize,
    count: usize,
) -> usize
    requires { (start + 34 * count ≤ length out.old) × (first + count ≤ 4 * length fields.now) × (first ≤ 512) }
    ensures { Put out.old start (rows row 0 (drop first (unpack (first + count) fields.now))) out.new result × (result ≤ start + 34 * count) }
{
    let mut end = start;
    for i in 0..count {
        end = put_row(out, end, row, i, three::field(fields, first + i));
    }
    end
}
