// A circuit in the binary form, as plain text (specification, 6.2): the bytes on standard input, the text on standard output.
#![tactic(auto)]

ghost use Rattle.converter.specs.Converter.{Converted};

use reader::MOST_TEXT;
use reporting::{DECIDING_BYTES, TABLE_WORDS, complain};
use std::io::{Stderr, Stdout};

// The text of what was read, or the refusal, at the front of the buffer; how many bytes it has. Nothing is relied on: any bytes may be
// handed in. What was read is never refused by the writer.
fn convert(binary: &[u8], out: &mut [u8; MOST_TEXT]) -> usize
    ensures { Converted binary.now out.old result out.new }
{
    let mut table = [0u16; TABLE_WORDS];
    match binary_reader::read_binary(binary, &mut table) {
        Ok(counts) => writer::write(counts, &table, out).unwrap(),
        Err(refusal) => reporting::put_refusal(out, refusal.number()),
    }
}

// The text for these bytes, on standard output.
fn print_converted(output: Stdout, errors: Stderr, binary: &[u8]) {
    let mut out = [0u8; MOST_TEXT];
    let bytes = convert(binary, &mut out);
    if output.write_all(&out[..bytes]).is_err() {
        complain(errors, b"converter: the text was not written\n");
    }
}

// Bytes that fill the buffer are refused whatever follows: that is printed before anything more is waited for.
fn main(rt: HostRuntime) {
    let input = rt.stdin();
    let errors = rt.stderr();
    let mut binary = [0u8; DECIDING_BYTES];
    let Ok(bytes) = reporting::take_text_counted(input, &mut binary) else {
        complain(
            errors,
            b"converter: standard input was not read to its end\n",
        );
        return;
    };
    print_converted(rt.stdout(), errors, &binary[..bytes]);
    if bytes == DECIDING_BYTES {
        reporting::skip_rest(input);
    }
}
