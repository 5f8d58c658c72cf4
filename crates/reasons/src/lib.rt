// The lines of an explanation, put into a buffer (specification, 6).
#![tactic(auto)]

ghost use Rattle.std.specs.Prelude.{◌≡◌, false, ◌||◌, ◌+◌, ◌*◌, ◌≤◌, eqb, length};
ghost use Rattle.three.specs.Lists.{every};
ghost use Rattle.three.specs.Value.{decode};
ghost use Rattle.three.specs.Record.{pair_at, unpack};
ghost use Rattle.putting.specs.PutInCode.{Put};
ghost use Rattle.reasons.specs.Reasons.{is_known, link, forced, latches, named, line};

fn put_link(out: &mut [u8], at: usize, begun: bool) -> usize
    requires { at + 2 ≤ length out.old }
    ensures { Put out.old at (link begun) out.new result × (result ≤ at + 2) }
{
    if begun {
        return rows::put_bytes(out, at, b", ");
    }
    rows::put_bytes(out, at, b": ")
}

// What is said of latch number i: nothing where it is not needed.
fn put_forced(out: &mut [u8], at: usize, begun: bool, i: usize, field: u8) -> usize
    requires { at + 32 ≤ length out.old }
    ensures { Put out.old at (forced begun i (decode field)) out.new result × (result ≤ at + 32) }
{
    if field == 0 {
        return at;
    }
    let name = put_link(out, at, begun);
    let word = rows::put_item(out, name, b"latch ", i);
    rows::put_said(out, word, field, b" = 0", b" = 1", b"")
}

fn has_begun(begun: bool, field: u8) -> bool
    ensures { result ≡ (begun || is_known (decode field)) }
{
    begun || field != 0
}

// The latches that are needed, or that none is.
fn put_latches(out: &mut [u8], start: usize, why: &[u8], count: usize) -> usize
    requires { (start + 32 * count + 30 ≤ length out.old) × (count ≤ 4 * length why.now) }
    ensures { Put out.old start (latches false 0 (unpack count why.now)) out.new result × (result ≤ start + 32 * count + 30) }
{
    let mut end = start;
    let mut begun = false;
    for i in 0..count {
        let field = three::field(why, i);
        end = put_forced(out, end, begun, i, field);
        begun = has_begun(begun, field);
    }
    if begun {
        return end;
    }
    rows::put_bytes(out, end, b": no latch: the gates alone")
}

// One cube, or several.
fn put_named(out: &mut [u8], from: usize, last: usize) -> usize
    requires { 60 ≤ length out.old }
    ensures { Put out.old 0 (named from last) out.new result × (result ≤ 60) }
{
    if from == last {
        return rows::put_item(out, 0, b"cube ", from);
    }
    let to = rows::put_item(out, 0, b"cubes ", from);
    rows::put_item(out, to, b" to ", last)
}

// The line of cubes `from` to `last`, with their explanation.
pub fn put_line(out: &mut [u8], from: usize, last: usize, why: &[u8], count: usize) -> usize
    requires { (100 + 32 * count ≤ length out.old) × (count ≤ 4 * length why.now) }
    ensures { Put out.old 0 (line from last (unpack count why.now)) out.new result × (result ≤ length out.old) }
{
    let start = put_named(out, from, last);
    let end = put_latches(out, start, why, count);
    rows::put_bytes(out, end, b"\n")
}

// Two records have the same fields.
pub fn same_fields(a: &[u8], b: &[u8], count: usize) -> bool
    requires { (count ≤ 4 * length a.now) × (count ≤ 4 * length b.now) }
    ensures { result ≡ every count (λ i. eqb (pair_at a.now i) (pair_at b.now i)) }
{
    (0..count).all(|i| three::field(a, i) == three::field(b, i))
}
