// Reads a log from standard input, little-endian words, address then value, and prints its packed list, or its refusal.
#![tactic(auto)]

use std::io;
use std::io::Write;
use terminal::{input_buffer, read_full};

fn main(rt: HostRuntime) -> io::Result<()> {
    // Longer than the longest log, so that a log over 8,192 words shows as one.
    let mut input = input_buffer();
    let read = read_full(&mut rt.stdin(), &mut input)?;
    let mut text = reports::list_report_buffer();
    let length = reports::pack_report(&input[..read], &mut text);
    rt.stdout().write_all(&text[..length])
}
