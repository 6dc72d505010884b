// Reads a log from standard input, little-endian words, packs it, and runs both sides of demand 3 from a fresh engine.
// Prints the packed length and, for each side, the number answered, how many were taken, the used counts and the status
// word; or the packer's refusal. That both sides are equal is proved in the crate equivalence; here it can be watched.
#![tactic(auto)]

use equivalence::run_both;
use feeding::{polygon_buffer, vertex_buffer};
use registers::status;
use state::{Engine, ListAnswer, MOST_POLYGONS, MOST_VERTICES};
use std::io;
use stream::{Form, Refusal, is_input, longest_list};
use terminal::{input_buffer, read_full};
use words::read_words;

fn print_refused(rt: &impl Print, number: u32, place: u32) -> io::Result<()> {
    println!(rt; "refused {number} {place}")
}

// How a side ended.
fn print_end(rt: &impl Print, side: &str, end: &ListAnswer) -> io::Result<()> {
    let used = end.engine.core.registers.geometry.used;
    let read = status(&end.engine);
    println!(rt;
        "{side}: number {} taken {} vertices {} polygons {} status {:08x}",
        end.number, end.taken, used.vertices, used.polygons, read.status,
    )
}

// Both sides of a log, each with buffers of its own.
fn print_both(rt: &impl Print, log: &[u32]) -> io::Result<()> {
    let started = Engine::start(MOST_VERTICES, MOST_POLYGONS);
    let mut list = longest_list();
    let mut vertices = vertex_buffer();
    let mut polygons = polygon_buffer();
    let mut vertices2 = vertex_buffer();
    let mut polygons2 = polygon_buffer();
    let ends = run_both(
        started.engine,
        log,
        &mut list,
        &mut vertices,
        &mut polygons,
        &mut vertices2,
        &mut polygons2,
    );
    if ends.packed.number != 0 {
        return print_refused(rt, ends.packed.number, ends.packed.place);
    }
    println!(rt; "words {}", ends.packed.length)?;
    print_end(rt, "writes", &ends.writes)?;
    print_end(rt, "words", &ends.words)
}

fn main(rt: HostRuntime) -> io::Result<()> {
    let mut input = input_buffer();
    let read = read_full(&mut rt.stdin(), &mut input)?;
    if !is_input(Form::Log, read) {
        return print_refused(&rt, Refusal::NoInput.into(), 0);
    }
    let mut log = longest_list();
    read_words(&input[..read], &mut log);
    print_both(&rt, &log[..read / 4])
}
