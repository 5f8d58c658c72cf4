// Values 0, 1 and X, and records of two-bit fields (specification, 2). A value is its two bits: 0 unknown, 1 low, 2 high.
#![tactic(auto)]

ghost use Rattle.std.specs.Prelude.{◌≡◌, ◌*◌, ◌<◌, ◌≤◌, length, get_or, set};
ghost use Rattle.three.specs.Lists.{over};
ghost use Rattle.three.specs.Value.{unknown, code, decode, both};
ghost use Rattle.three.specs.Cube.{Cube, merged, known_fields};
ghost use Rattle.three.specs.Record.{bytes_for, byte_of, byte_at, pack, pairs, pair_at, unpack, sound as sound_record};
ghost use Rattle.three.specs.RecordInCode.{judged};
ghost use Rattle.three.specs.RecordInCode.{IsRecord};
ghost use Rattle.three.specs.GivenInCode.{Gives, GivenBy};

// 0 with anything is 0, 1 with 1 is 1, the rest X
static AND: [[u8; 3]; 3] = [[0, 1, 0], [1, 1, 1], [0, 1, 2]];

pub fn and3(a: u8, b: u8) -> u8
    requires { (a < 3) × (b < 3) }
    ensures { result ≡ code (both (decode a) (decode b)) }
{
    AND[a as usize][b as usize]
}

// The count of its known fields, or 255 where some pair is 11.
static KNOWN: [u8; 256] = [
    0, // 0x00
    1, 1, 255, 1, 2, 2, 255, 1, 2, 2, 255, 255, 255, 255, 255, 1, // 0x10
    2, 2, 255, 2, 3, 3, 255, 2, 3, 3, 255, 255, 255, 255, 255, 1, // 0x20
    2, 2, 255, 2, 3, 3, 255, 2, 3, 3, 255, 255, 255, 255, 255, 255, // 0x30
    255, 255, 255, 255, 255, 255, 255, 255, 255, 255, 255, 255, 255, 255, 255, 1, // 0x40
    2, 2, 255, 2, 3, 3, 255, 2, 3, 3, 255, 255, 255, 255, 255, 2, // 0x50
    3, 3, 255, 3, 4, 4, 255, 3, 4, 4, 255, 255, 255, 255, 255, 2, // 0x60
    3, 3, 255, 3, 4, 4, 255, 3, 4, 4, 255, 255, 255, 255, 255, 255, // 0x70
    255, 255, 255, 255, 255, 255, 255, 255, 255, 255, 255, 255, 255, 255, 255, 1, // 0x80
    2, 2, 255, 2, 3, 3, 255, 2, 3, 3, 255, 255, 255, 255, 255, 2, // 0x90
    3, 3, 255, 3, 4, 4, 255, 3, 4, 4, 255, 255, 255, 255, 255, 2, // 0xa0
    3, 3, 255, 3, 4, 4, 255, 3, 4, 4, 255, 255, 255, 255, 255, 255, // 0xb0
    255, 255, 255, 255, 255, 255, 255, 255, 255, 255, 255, 255, 255, 255, 255, 255, // 0xc0
    255, 255, 255, 255, 255, 255, 255, 255, 255, 255, 255, 255, 255, 255, 255, 255, // 0xd0
    255, 255, 255, 255, 255, 255, 255, 255, 255, 255, 255, 255, 255, 255, 255, 255, // 0xe0
    255, 255, 255, 255, 255, 255, 255, 255, 255, 255, 255, 255, 255, 255, 255, 255, // 0xf0
    255, 255, 255, 255, 255, 255, 255, 255, 255, 255, 255, 255, 255, 255, 255,
];

const BAD: u8 = 255;

fn known(byte: u8) -> u8
    ensures { result ≡ judged byte }
{
    KNOWN[byte as usize]
}

// A record of f fields takes f / 4 bytes rounded up, and at least one.
pub fn record_length(fields: usize) -> usize
    ensures { result ≡ bytes_for fields }
{
    if fields == 0 {
        return 1;
    }
    (fields - 1) / 4 + 1
}

// A given record has no pair 11 and no leftover bit set.
#[inline(never)] // in line, its loop has too few registers left: a merge of 512 fields takes a third more
pub fn sound(bytes: &[u8], fields: usize) -> bool
    requires { (fields ≤ 4096) × (bytes_for fields ≤ length bytes.now) }
    ensures { result ≡ sound_record fields bytes.now }
{
    let len = record_length(fields);
    for &byte in &bytes[..len] {
        if known(byte) == BAD {
            return false;
        }
    }
    // The leftover fields are the low bits of the last byte.
    let last = bytes[len - 1] as usize;
    last % (1 << (2 * (4 * len - fields))) == 0
}

// Field number i of a record.
pub fn field(bytes: &[u8], i: usize) -> u8
    requires { i < 4 * length bytes.now }
    ensures { result ≡ pair_at bytes.now i }
{
    (bytes[i / 4] >> (6 - 2 * (i % 4))) % 4
}

// A record's byte with the field at this place replaced: its old pair is cleared, the other three stay.
pub fn put_field(byte: u8, place: usize, x: u8) -> u8
    requires { (place < 4) × (x < 3) }
    ensures { pairs result ≡ set (pairs byte) place x }
{
    let s = 6 - 2 * place;
    byte & (255 - (3 << s)) | (x << s)
}

// Four fields as a record's byte, the first in its most significant bits.
pub fn byte_of(a: u8, b: u8, c: u8, d: u8) -> u8
    requires { (a < 3) × (b < 3) × (c < 3) × (d < 3) }
    ensures { result ≡ byte_of (decode a) (decode b) (decode c) (decode d) }
{
    64 * a + 16 * b + 4 * c + d
}

// Field number i of those that a function gives; a field beyond them is X.
fn given_field<F: Fn(usize) -> u8>(field: &F, count: usize, i: usize) -> u8
    requires { Gives (F.pre field.now) (F.post field.now) count }
    ensures small { result < 3 }
    ensures same { (fields : Cube) → GivenBy (F.post field.now) count fields → result ≡ code (get_or fields i unknown) }
{
    if i >= count {
        return 0;
    }
    field(i)
}

// Byte number k of the record of those fields.
fn given_byte<F: Fn(usize) -> u8>(field: &F, count: usize, k: usize) -> u8
    requires { Gives (F.pre field.now) (F.post field.now) count × (k < 4096) }
    ensures { (fields : Cube) → GivenBy (F.post field.now) count fields → result ≡ byte_at fields k }
{
    let i = 4 * k;
    let a = given_field(field, count, i);
    let b = given_field(field, count, i + 1);
    let c = given_field(field, count, i + 2);
    let d = given_field(field, count, i + 3);
    byte_of(a, b, c, d)
}

// That record, into the front of `out`.
pub fn store_fields<F: Fn(usize) -> u8>(count: usize, field: F, out: &mut [u8])
    requires { Gives (F.pre field) (F.post field) count × (count ≤ 4096) × (bytes_for count ≤ length out.old) }
    ensures { (fields : Cube) → GivenBy (F.post field) count fields → out.new ≡ over (pack fields) out.old }
{
    for k in 0..record_length(count) {
        out[k] = given_byte(&field, count, k);
    }
}

// How many fields of a record are known.
pub fn known_fields(bytes: &[u8], fields: usize) -> usize
    requires { (fields ≤ 4096) × IsRecord fields bytes.now }
    ensures { result ≡ known_fields (unpack fields bytes.now) }
{
    let mut count: usize = 0;
    for &byte in &bytes[..record_length(fields)] {
        count += known(byte) as usize;
    }
    count
}

// Keeps in a record what is known alike in both: on the two bits of a field that is AND.
pub fn agree(bytes: &mut [u8], other: &[u8], fields: usize)
    requires { IsRecord fields bytes.old × IsRecord fields other.now }
    ensures { bytes.new ≡ over (pack (merged (unpack fields bytes.old) (unpack fields other.now))) bytes.old }
{
    for k in 0..record_length(fields) {
        bytes[k] = bytes[k] & other[k];
    }
}
