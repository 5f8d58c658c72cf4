// The report program (specification, 6): a circuit's text on standard input, the report on standard output.
#![tactic(auto)]

use reported::REPORT_BYTES;
use reporting::{DECIDING_BYTES, complain};
use std::io::{Stderr, Stdout};

// The report on a text, on standard output.
fn print_report(output: Stdout, errors: Stderr, text: &[u8]) {
    let mut out = [0u8; REPORT_BYTES];
    let bytes = reported::report(text, &mut out);
    if output.write_all(&out[..bytes]).is_err() {
        complain(errors, b"report: the report was not written\n");
    }
}

// A text that fills the buffer is refused whatever follows: that is printed before anything more is waited for.
fn main(rt: HostRuntime) {
    let input = rt.stdin();
    let errors = rt.stderr();
    let mut text = [0u8; DECIDING_BYTES];
    let Ok(bytes) = reporting::take_text_counted(input, &mut text) else {
        complain(errors, b"report: standard input was not read to its end\n");
        return;
    };
    print_report(rt.stdout(), errors, &text[..bytes]);
    if bytes == DECIDING_BYTES {
        reporting::skip_rest(input);
    }
}
