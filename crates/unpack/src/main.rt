// Reads a packed list from standard input, little-endian words, and prints it as port writes, or its refusal.
#![tactic(auto)]

use std::io;
use std::io::Write;
use terminal::{input_buffer, read_full};

fn main(rt: HostRuntime) -> io::Result<()> {
    // Longer than the longest list, so that a list over 8,192 words shows as one.
    let mut input = input_buffer();
    let read = read_full(&mut rt.stdin(), &mut input)?;
    let mut text = reports::log_report_buffer();
    let length = reports::unpack_report(&input[..read], &mut text);
    rt.stdout().write_all(&text[..length])
}
