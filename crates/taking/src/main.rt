// Tries `reporting::take_text`, which no other program here calls: how many bytes it took, or the number of the system's error.
#![tactic(auto)]

use reporting::DECIDING_BYTES;

fn main(rt: HostRuntime) {
    let mut text = [0u8; DECIDING_BYTES];
    match reporting::take_text(rt.stdin(), &mut text) {
        Ok(bytes) => {
            let _ = println!(rt; "{bytes} bytes");
        }
        Err(error) => {
            let number = error.raw_os_error().unwrap_or(0);
            let _ = eprintln!(rt; "taking: os error {number}");
        }
    }
}
