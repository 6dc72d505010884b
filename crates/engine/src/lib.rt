// The engine's calls: one packed word, one port write, a whole list. Each is a feed, of one item or of many, so that
// commands are run in one place. The record goes by value; the caller's two buffers are borrowed for the call. Document
// 01, "Commands and their parameters" and "Numbers a call can refuse with"; document 02, T-01.
#![tactic(auto)]

ghost use Rattle.std.specs.Prelude.{◌≡◌};
ghost use Rattle.stream.specs.Command.{write};
ghost use Rattle.stream.specs.Read.{writes};
ghost use Rattle.stream.specs.Call.{reply};
ghost use Rattle.stream.specs.Feed.{place_of};
ghost use Rattle.stream.specs.Refusal.{call_number};
ghost use Rattle.execute.specs.Call.{machine_of, reply_of, GivenBack, word_reply, port_reply};
ghost use Rattle.execute.specs.Call.{fed_of, FirstGivenBack, words_reply, writes_reply, feed_as};

use feeding::{Fed, feed_items};
use state::{Answer, Engine, ListAnswer, answered};
use stream::{Form, Refusal, call_number};

// One packed word on the engine where it stands: a command word, a parameter or a dummy. Refused with 1, 2, 4 or 3, in
// this order; a refused call leaves the engine and both buffers as they were.
pub fn word_in_place(
    engine: &mut Engine,
    w: u32,
    vertices: &mut [i32],
    polygons: &mut [u32],
) -> Option<Refusal>
    ensures reply { reply (call_number result) (machine_of engine.new vertices.new polygons.new)
        ≡ word_reply (machine_of engine.old vertices.old polygons.old) w }
    ensures given_back { (call_number result ≡ 0 → ⊥) → engine.new ≡ engine.old }
{
    feed_items(Form::Packed, engine, &[w], vertices, polygons).refusal
}

// The same on an engine by value; a refused call hands back the engine that it was given.
pub fn word(e: Engine, w: u32, vertices: &mut [i32], polygons: &mut [u32]) -> Answer
    ensures reply { reply_of result vertices.new polygons.new
        ≡ word_reply (machine_of e vertices.old polygons.old) w }
    ensures given_back { GivenBack e result }
{
    let mut engine = e;
    let refusal = word_in_place(&mut engine, w, vertices, polygons);
    answered(call_number(refusal), engine)
}

// One port write on the engine where it stands. Refused with 1, 2, 5, 4 or 6, in this order.
fn port_write_in_place(
    engine: &mut Engine,
    address: u32,
    value: u32,
    vertices: &mut [i32],
    polygons: &mut [u32],
) -> Option<Refusal>
    ensures reply { reply (call_number result) (machine_of engine.new vertices.new polygons.new)
        ≡ port_reply (machine_of engine.old vertices.old polygons.old) (write address value) }
    ensures given_back { (call_number result ≡ 0 → ⊥) → engine.new ≡ engine.old }
{
    feed_items(Form::Log, engine, &[address, value], vertices, polygons).refusal
}

// The same on an engine by value; a refused call hands back the engine that it was given and leaves both buffers as they
// were.
pub fn port_write(
    e: Engine,
    address: u32,
    value: u32,
    vertices: &mut [i32],
    polygons: &mut [u32],
) -> Answer
    ensures reply { reply_of result vertices.new polygons.new
        ≡ port_reply (machine_of e vertices.old polygons.old) (write address value) }
    ensures given_back { GivenBack e result }
{
    let mut engine = e;
    let refusal = port_write_in_place(&mut engine, address, value, vertices, polygons);
    answered(call_number(refusal), engine)
}

// The refused item's index, which is how many were taken before it; 0 where none is refused.
fn place_of(refusal: Option<Refusal>, taken: usize) -> usize
    ensures { result ≡ place_of (call_number refusal) taken }
{
    if refusal.is_some() { taken } else { 0 }
}

// Words as they are, or as the port writes of a log, in one call. For the crates above.
pub fn feed_as(
    form: Form,
    e: Engine,
    words: &[u32],
    vertices: &mut [i32],
    polygons: &mut [u32],
) -> ListAnswer
    ensures reply { fed_of result vertices.new polygons.new
        ≡ feed_as form (machine_of e vertices.old polygons.old) words.now }
    ensures place_value { result.place ≡ place_of result.number result.taken }
    ensures first_given_back { FirstGivenBack e result }
{
    let mut engine = e;
    let Fed { taken, refusal } = feed_items(form, &mut engine, words, vertices, polygons);
    ListAnswer {
        number: call_number(refusal),
        place: place_of(refusal, taken),
        taken,
        engine,
    }
}

// A whole list in one call, of any length: 1 and 2, also for an empty one, then word by word until one is refused, with
// 4 or 3. The engine and both buffers are then as the words before left them; where there are none, as they were given.
// Words and writes have a name each over `feed_as`, for C and for the two sides of demand 3.
pub fn feed_words(
    e: Engine,
    words: &[u32],
    vertices: &mut [i32],
    polygons: &mut [u32],
) -> ListAnswer
    ensures reply { fed_of result vertices.new polygons.new
        ≡ words_reply (machine_of e vertices.old polygons.old) words.now }
    ensures place_value { result.place ≡ place_of result.number result.taken }
    ensures first_given_back { FirstGivenBack e result }
{
    feed_as(Form::Packed, e, words, vertices, polygons)
}

// The port writes of a log in one call, in the same way: the other side of demand 3. A last number without a partner is
// no write. For the crates above this one.
pub fn feed_writes(e: Engine, log: &[u32], vertices: &mut [i32], polygons: &mut [u32]) -> ListAnswer
    ensures reply { fed_of result vertices.new polygons.new
        ≡ writes_reply (machine_of e vertices.old polygons.old) (writes log.now) }
    ensures place_value { result.place ≡ place_of result.number result.taken }
    ensures first_given_back { FirstGivenBack e result }
{
    feed_as(Form::Log, e, log, vertices, polygons)
}
