// What the program `replay` is told by its arguments (`replay list|log [VERTICES POLYGONS]`), and what it writes: the
// run of a packed list or of a log on a started engine.
#![tactic(auto, using(crate::proofs::ReplayLaws::report_rules, std::proofs::lemmas::Grind::common_steps))]

ghost use Rattle.std.specs.Prelude.{◌≡◌, true, ◌+◌, ◌≤◌, length};
ghost use Rattle.stream.specs.Input.{most_words};
ghost use Rattle.io.specs.Counts.{IsPrefixLen as Counted};
ghost use Rattle.state.specs.Sound.{sound};
ghost use Rattle.polygons.specs.Buffers.{long_enough};
ghost use Rattle.execute.specs.Call.{machine_of, fed_of, feed_as};
ghost use Rattle.listing.specs.Buffer.{HasRoom, with_bytes};
ghost use Rattle.replays.specs.Arguments.{source_of, room_of};
ghost use Rattle.replays.specs.Replay.{refusal_text, fed_text, ran, replay, replay_as, Reports};
ghost use Rattle.replays.specs.Inside.{PutsReport};

use engine::feed_as;
use listing::Text;
use readout::put_engine;
use state::{Counts, Engine, ListAnswer};
use stream::{Form, Refusal, is_input, longest_list};
use words::read_words;

// The form of the input that an argument names: packed words, or a log of port writes. A function: `Form` is of a crate
// below, so no `TryFrom` can stand here.
pub fn source_of(name: &[u8]) -> Option<Form>
    ensures { result ≡ source_of name.now }
{
    if name == b"list".as_slice() {
        Some(Form::Packed)
    } else if name == b"log".as_slice() {
        Some(Form::Log)
    } else {
        None
    }
}

// The room that an argument gives: one to nine decimal digits; 0, which is no room, for any other text: the start
// refuses it like any number out of range, so an `Option` would be taken apart to the same 0. `str::parse` takes a sign
// too.
pub fn room_of(digits: &[u8]) -> usize
    ensures { result ≡ room_of digits.now }
{
    if digits.len() > 9 {
        return 0;
    }
    // no digit leaves the 0
    let mut room = 0;
    for digit in digits {
        if !digit.is_ascii_digit() {
            return 0;
        }
        room = 10 * room + usize::from(*digit - b'0');
    }
    room
}

// Room for the longest report: a line of at most 17 bytes, one of 30, and the engine's text of 433,602. What it holds
// is free.
pub fn report_buffer() -> [u8; 433649]
    ensures { 433649 ≡ length result }
{
    [0; 433649]
}

// The line of a refusal, where there was one: its number is that of the record for C, 0 for none.
fn put_refusal(text: &mut Text, number: u32, place: u32)
    requires { HasRoom text.old 30 }
    ensures { text.new ≡ with_bytes text.old (refusal_text number place) }
{
    if number != 0 {
        text.put_refused(number, place);
    }
}

// What was fed, and the engine at its end.
#[tactic(auto, using(crate::proofs::ReplayLaws::report_rules), unfolding(crate::specs::Replay::fed_text))]
fn put_fed(text: &mut Text, fed: &ListAnswer, vertices: &[i32], polygons: &[u32])
    requires sound { (sound fed.now.engine ≡ true) × (fed.now.taken ≤ most_words) }
    requires buffers_long { long_enough fed.now.engine.core.registers.geometry.rooms (length vertices.now)
        (length polygons.now) ≡ true }
    requires room { HasRoom text.old 433649 }
    ensures puts { text.new ≡ with_bytes text.old (fed_text (fed_of fed.now vertices.now polygons.now)) }
    ensures within { text.new.length ≤ text.old.length + 433649 }
{
    let taken = fed.taken as u32;
    text.put_number_line(b"taken ", taken);
    put_refusal(text, fed.number, taken);
    put_engine(text, &fed.engine, vertices, polygons);
}

// A run, and its report.
fn put_run(
    text: &mut Text,
    form: Form,
    e: Engine,
    words: &[u32],
    vertices: &mut [i32],
    polygons: &mut [u32],
)
    requires sound { (sound e ≡ true) × (length words.now ≤ most_words) }
    requires buffers_long { long_enough e.core.registers.geometry.rooms (length vertices.old) (length polygons.old)
        ≡ true }
    requires room { HasRoom text.old 433649 }
    ensures { PutsReport (ran (feed_as form (machine_of e vertices.old polygons.old) words.now))
        text.old text.new vertices.new polygons.new }
{
    let fed = feed_as(form, e, words, &mut *vertices, &mut *polygons);
    put_fed(text, &fed, vertices, polygons);
}

// The run of an input on an engine that is started with these rooms, and its report.
fn put_replay(
    text: &mut Text,
    form: Form,
    rooms: Counts,
    input: &[u8],
    vertices: &mut [i32; 30720],
    polygons: &mut [u32; 6144],
)
    requires { HasRoom text.old 433649 }
    ensures { PutsReport (replay form rooms.vertices rooms.polygons input.now vertices.old polygons.old)
        text.old text.new vertices.new polygons.new }
{
    let started = Engine::start(rooms.vertices, rooms.polygons);
    if started.number != 0 {
        return text.put_refused(Refusal::NoRoom.into(), 0);
    }
    if !is_input(form, input.len()) {
        return text.put_refused(Refusal::NoInput.into(), 0);
    }
    let mut words = longest_list();
    read_words(input, &mut words);
    put_run(
        text,
        form,
        started.engine,
        &words[..input.len() / 4],
        vertices,
        polygons,
    );
}

// The report of a source.
fn put_report(
    text: &mut Text,
    source: Option<Form>,
    rooms: Counts,
    input: &[u8],
    vertices: &mut [i32; 30720],
    polygons: &mut [u32; 6144],
)
    requires { HasRoom text.old 433649 }
    ensures { PutsReport (replay_as source rooms.vertices rooms.polygons input.now vertices.old polygons.old)
        text.old text.new vertices.new polygons.new }
{
    match source {
        Some(form) => put_replay(text, form, rooms, input, vertices, polygons),
        None => text.put(b"usage: replay list|log [VERTICES POLYGONS]\n"),
    }
}

// What the program `replay` writes, from the buffer's first byte on; how many bytes that is.
pub fn replay_report(
    source: Option<Form>,
    rooms: Counts,
    input: &[u8],
    vertices: &mut [i32; 30720],
    polygons: &mut [u32; 6144],
    text: &mut [u8; 433649],
) -> usize
    ensures reports { Reports (replay_as source rooms.vertices rooms.polygons input.now
        vertices.old polygons.old) result
        text.old text.new vertices.new polygons.new }
    ensures counted { Counted result text.new }
{
    let mut report = Text::new(text);
    put_report(&mut report, source, rooms, input, vertices, polygons);
    report.length
}
