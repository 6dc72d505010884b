// Runs a packed list, or a log of port writes, from standard input on a started engine, and prints how many were taken,
// the refusal if there was one, and the engine with both lists as they were left.
// Arguments: `list` or `log`, then optionally the rooms for vertices and polygons in decimal.
#![tactic(auto)]

ghost use Rattle.std.specs.Prelude.{◌≤◌, length};

use replays::{room_of, source_of};
use state::{Counts, MOST_POLYGONS, MOST_VERTICES};
use std::env::FillError;
use std::io;
use std::io::Write;
use std::rt::Env;
use stream::Form;
use terminal::{input_buffer, read_full};

// Puts argument i at the start of the buffer and answers how long it is: 0 where it is missing or longer than that.
fn argument(rt: &impl Env, i: usize, buffer: &mut [u8]) -> usize
    ensures { result ≤ length buffer.new }
{
    rt.arg(i, buffer).unwrap_or(0)
}

// Whether there is an argument i.
fn is_given(rt: &impl Env, i: usize) -> bool {
    !matches!(rt.arg(i, &mut []), Err(FillError::NotPresent))
}

// The form that the first argument names; none, where there are more than three arguments.
fn source(rt: &impl Env) -> Option<Form> {
    let mut name = [0u8; 8];
    let length = argument(rt, 1, &mut name);
    if is_given(rt, 4) {
        return None;
    }
    source_of(&name[..length])
}

// The room that argument i gives; `default` where none are given.
fn room(rt: &impl Env, i: usize, default: usize) -> usize {
    if !is_given(rt, 2) {
        return default;
    }
    let mut digits = [0u8; 16];
    let length = argument(rt, i, &mut digits);
    room_of(&digits[..length])
}

fn main(rt: HostRuntime) -> io::Result<()> {
    let rooms = Counts {
        vertices: room(&rt, 2, MOST_VERTICES),
        polygons: room(&rt, 3, MOST_POLYGONS),
    };
    // Longer than the longest input, so that one over 8,192 words shows as such.
    let mut input = input_buffer();
    let read = read_full(&mut rt.stdin(), &mut input)?;
    let mut vertices = feeding::vertex_buffer();
    let mut polygons = feeding::polygon_buffer();
    let mut text = replays::report_buffer();
    let length = replays::replay_report(
        source(&rt),
        rooms,
        &input[..read],
        &mut vertices,
        &mut polygons,
        &mut text,
    );
    rt.stdout().write_all(&text[..length])
}
