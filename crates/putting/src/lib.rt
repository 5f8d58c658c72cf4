// Bytes and numbers put into a buffer (specification, 4.1 and 4.2). Every `put` answers the position behind the bytes that it writes.
#![tactic(auto)]

ghost use Rattle.std.specs.Prelude.{◌≡◌, ◌≤◌, ◌<◌, ◌+◌, length, [], ◌∷◌, ◌++◌};
ghost use Rattle.text.specs.Decimal.{decimal};
ghost use Rattle.putting.specs.PutInCode.{Put};

fn put_byte(text: &mut [u8], at: usize, byte: u8) -> usize
    requires { at < length text.old }
    ensures { Put text.old at (byte ∷ []) text.new result }
{
    text[at] = byte;
    at + 1
}

pub fn put_digit(text: &mut [u8], at: usize, d: usize) -> usize
    requires { (d < 10) × (at < length text.old) }
    ensures { Put text.old at ((48 + d) ∷ []) text.new result }
{
    put_byte(text, at, 48 + d as u8)
}

// A number of one digit, and below of two, three and four; the most significant digit comes first.
pub fn put_one(text: &mut [u8], at: usize, n: usize) -> usize
    requires { (n < 10) × (at + length (decimal n) ≤ length text.old) }
    ensures { Put text.old at (decimal n) text.new result }
{
    put_digit(text, at, n)
}

fn put_two(text: &mut [u8], at: usize, n: usize) -> usize
    requires { (10 ≤ n) × (n < 100) × (at + length (decimal n) ≤ length text.old) }
    ensures { Put text.old at (decimal n) text.new result }
{
    let last = put_one(text, at, n / 10);
    put_digit(text, last, n % 10)
}

fn put_three(text: &mut [u8], at: usize, n: usize) -> usize
    requires { (100 ≤ n) × (n < 1000) × (at + length (decimal n) ≤ length text.old) }
    ensures { Put text.old at (decimal n) text.new result }
{
    let last = put_two(text, at, n / 10);
    put_digit(text, last, n % 10)
}

fn put_four(text: &mut [u8], at: usize, n: usize) -> usize
    requires { (1000 ≤ n) × (n < 10000) × (at + length (decimal n) ≤ length text.old) }
    ensures { Put text.old at (decimal n) text.new result }
{
    let last = put_three(text, at, n / 10);
    put_digit(text, last, n % 10)
}

// No leading zero except `0` itself. A legal circuit's numbers have at most four digits: they are put without a loop or a recursion.
fn put_number(text: &mut [u8], at: usize, n: usize) -> usize
    requires { (n < 10000) × (at + length (decimal n) ≤ length text.old) }
    ensures { Put text.old at (decimal n) text.new result }
{
    if n < 100 {
        if n < 10 {
            return put_one(text, at, n);
        }
        return put_two(text, at, n);
    }
    if n < 1000 {
        return put_three(text, at, n);
    }
    put_four(text, at, n as u16 as usize) // 16 bits are divided faster than 64
}

// A number and the byte behind it.
pub fn put_word(text: &mut [u8], at: usize, n: usize, behind: u8) -> usize
    requires { (n < 10000) × (at + length (decimal n) < length text.old) }
    ensures { Put text.old at (decimal n ++ (behind ∷ [])) text.new result × (result ≡ at + length (decimal n) + 1) }
{
    let end = put_number(text, at, n);
    put_byte(text, end, behind)
}
