// The command stream by turns: the next command of packed words or of a log, with those of its parameters that are
// there. Document 01, "Commands and their parameters". A feed runs the commands. A log is not cut into pairs here: the
// loop of a feed holds words of either form, and would cut them anew at each turn. `Fit` stays a clause: as a ghost field each literal of a `Begun` would have to prove
// it, where `Turned` says it once for a turn.
#![tactic(auto)]

ghost use Rattle.std.specs.Prelude.{◌≡◌, true, false, [], ◌*◌, ◌/◌, ◌%◌, ◌+◌, ◌≤◌, ◌<◌, length, get_or};
ghost use Rattle.commands.specs.Commands.{known};
ghost use Rattle.stream.specs.Command.{write};
ghost use Rattle.stream.specs.Read.{writes};
ghost use Rattle.stream.specs.Step.{word_step, port_step};
ghost use Rattle.stream.specs.declared.Form.TheVariants.{Log};
ghost use Rattle.turns.specs.Inside.{Fit, Turned, due_of, is_packed, Held, Writable, items_in, TurnedAs, command_in};

use commands::{command_at, command_bytes, count, has_hole, is_known};
use stream::{Form, Refusal};

// What is pending but for the parameters that are held: `count` of them. Commands at the front of `queue` that take
// none are still to run; `dummy`, with nothing queued: the dummy word is due. Port 0 is none, as in the record for C.
#[derive(Clone, Copy)]
pub struct Begun {
    pub queue: u32,
    pub count: usize,
    pub dummy: bool,
    pub port: u8,
}

// What a turn comes to: a command is complete, with the first held parameters; none is, and there is more; or the end,
// all items taken or the next one refused.
#[derive(Clone, Copy)]
pub enum Outcome {
    Runs(u8),
    GoesOn,
    Ends(Option<Refusal>),
}

// What a turn gives: the next item, what is pending then, and what it comes to.
#[derive(Clone, Copy)]
pub struct Turn {
    pub next: usize,
    pub begun: Begun,
    pub outcome: Outcome,
}

// The end, or a refusal.
fn ends(next: usize, begun: Begun, refusal: Option<Refusal>) -> Turn
    ensures { result ≡ record { next = next; begun = begun; outcome = Outcome.Ends refusal } }
{
    Turn {
        next,
        begun,
        outcome: Outcome::Ends(refusal),
    }
}

// ---- packed words

// So many words become held parameters.
fn hold_words(words: &[u32], i: usize, many: usize, held: &mut [u32; 32], count: usize)
    requires { (i + many ≤ length words.now) × (count + many ≤ 32) }
    ensures { Held (λ w. w) words.now i held.old count held.new many }
{
    // Most commands take one parameter.
    if many == 1 {
        held[count] = words[i];
        return;
    }
    // Word by word: `copy_from_slice` calls `memmove`, which the library for C would need from outside.
    for j in 0..many {
        held[count + j] = words[i + j];
    }
}

// A turn on the command at the front of the queue.
fn parameters_turn(b: Begun, words: &[u32], i: usize, held: &mut [u32; 32]) -> Turn
    requires fit { Fit b × (known (b.queue % 256) ≡ true) }
    requires i_in_bounds { i ≤ length words.now }
    ensures { Turned word_step words.now i b held.old result held.new }
{
    let byte = (b.queue % 256) as u8;
    // Fewer are held than a command takes: one that lacks none takes none.
    let lacks = count(byte) - b.count;
    let behind = Begun {
        queue: b.queue / 256,
        count: 0,
        dummy: lacks == 0,
        port: 0,
    };
    let outcome = Outcome::Runs(byte);
    if lacks == 0 {
        return Turn {
            next: i,
            begun: behind,
            outcome,
        };
    }
    let left = words.len() - i;
    if left < lacks {
        hold_words(words, i, left, held, b.count);
        let begun = Begun {
            count: b.count + left,
            dummy: false,
            ..b
        };
        return ends(i + left, begun, None);
    }
    hold_words(words, i, lacks, held, b.count);
    Turn {
        next: i + lacks,
        begun: behind,
        outcome,
    }
}

// A turn over packed words, from the i-th on.
fn word_turn(b: Begun, words: &[u32], i: usize, held: &mut [u32; 32]) -> Turn
    requires fit { Fit b × (i ≤ length words.now) }
    ensures { Turned word_step words.now i b held.old result held.new }
{
    if is_known((b.queue % 256) as u8) {
        return parameters_turn(b, words, i, held);
    }
    if words.len() <= i {
        return ends(i, b, None);
    }
    if b.port != 0 {
        return ends(i, b, Some(Refusal::OtherKindPending));
    }
    if b.dummy {
        return Turn {
            next: i + 1,
            begun: Begun { dummy: false, ..b },
            outcome: Outcome::GoesOn,
        };
    }
    let queue = words[i];
    if has_hole(command_bytes(queue)) {
        return ends(i, b, Some(Refusal::Hole));
    }
    Turn {
        next: i + 1,
        begun: Begun {
            queue,
            count: 0,
            dummy: false,
            port: 0,
        },
        outcome: Outcome::GoesOn,
    }
}

// ---- port writes

// The values of the writes from the i-th on become held parameters, so many at most, up to the first write to another
// address; how many they are.
fn hold_writes(
    log: &[u32],
    i: usize,
    most: usize,
    address: u32,
    held: &mut [u32; 32],
    count: usize,
) -> usize
    requires most_in_bounds { (i + most ≤ length log.now / 2) × (count + most ≤ 32) }
    requires le_most { (1 ≤ most) × (address ≡ get_or log.now (2 * i) 0) }
    ensures held { Held (write address) (writes log.now) i held.old count held.new
        result }
    ensures lower_bound { (1 ≤ result) × (result ≤ most) }
{
    for j in 0..most {
        if log[2 * (i + j)] != address {
            return j;
        }
        held[count + j] = log[2 * (i + j) + 1];
    }
    most
}

// A turn on writes to the port of `byte`, which can be written.
fn values_turn(byte: u8, b: Begun, log: &[u32], i: usize, held: &mut [u32; 32]) -> Turn
    requires writable { Writable b byte log.now i held.old }
    ensures turned { Turned port_step (writes log.now) i b held.old result held.new }
    ensures queue_kept { (result.begun.queue ≡ b.queue) × (result.begun.dummy ≡ b.dummy) }
{
    let complete = Turn {
        next: i + 1,
        begun: Begun {
            count: 0,
            port: 0,
            ..b
        },
        outcome: Outcome::Runs(byte),
    };
    let takes = count(byte);
    if takes == 0 {
        return complete;
    }
    let lacks = takes - b.count;
    // Most commands lack one.
    if lacks == 1 {
        held[b.count] = log[2 * i + 1];
        return complete;
    }
    let most = lacks.min(log.len() / 2 - i);
    let many = hold_writes(log, i, most, log[2 * i], held, b.count);
    let next = i + many;
    if many == lacks {
        return Turn { next, ..complete };
    }
    Turn {
        next,
        begun: Begun {
            count: b.count + many,
            port: byte,
            ..b
        },
        outcome: Outcome::GoesOn,
    }
}

// A turn over the port writes of a log, from the i-th on; `packed`: a packed word is pending.
fn write_turn(packed: bool, b: Begun, log: &[u32], i: usize, held: &mut [u32; 32]) -> Turn
    requires fit { Fit b × (i ≤ length log.now / 2) }
    requires not_due { (due_of b ≡ []) × (packed ≡ is_packed b) }
    ensures turned { Turned port_step (writes log.now) i b held.old result held.new }
    ensures queue_kept { (result.begun.queue ≡ b.queue) × (result.begun.dummy ≡ b.dummy) }
{
    if log.len() / 2 <= i {
        return ends(i, b, None);
    }
    let byte = command_at(log[2 * i]);
    if byte == 0 {
        return ends(i, b, Some(Refusal::NoPort));
    }
    if packed {
        return ends(i, b, Some(Refusal::OtherKindPending));
    }
    if b.port != 0 && b.port != byte {
        return ends(i, b, Some(Refusal::OtherPort));
    }
    values_turn(byte, b, log, i, held)
}

// ---- either

// A packed word is pending. For the crates above this one.
#[tactic(auto, unfolding(crate::specs::Inside::is_packed))]
pub fn is_packed(b: Begun) -> bool
    ensures { result ≡ is_packed b }
{
    is_known((b.queue % 256) as u8) || b.dummy
}

// A turn over the items from the i-th on; `packed`, for a log: a packed word is pending. For the crates above this one.
pub fn turn_at(
    form: Form,
    packed: bool,
    b: Begun,
    words: &[u32],
    i: usize,
    held: &mut [u32; 32],
) -> Turn
    requires fit { Fit b × (i ≤ items_in form (length words.now)) }
    requires not_due { form ≡ Log → (due_of b ≡ []) × (packed ≡ is_packed b) }
    ensures turned_as { TurnedAs form words.now i b held.old result held.new }
    ensures queue_bounded { (form ≡ Log → (result.begun.queue ≡ b.queue) × (result.begun.dummy ≡ b.dummy))
        × (command_in result.outcome < 256) × (result.begun.queue < 4294967296) }
{
    match form {
        Form::Packed => word_turn(b, words, i, held),
        Form::Log => write_turn(packed, b, words, i, held),
    }
}
