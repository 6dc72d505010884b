// The packer: a log of port writes, address and value pairs, as a packed list. Document 01, "Packer and unpacker". One
// pass over the log measures, one writes.
#![tactic(auto)]

ghost use Rattle.std.specs.Prelude.{◌≡◌, ◌+◌, ◌*◌, ◌^◌, ◌≤◌, ◌<◌, length, MatchResult};
ghost use Rattle.words.specs.Words.{over};
ghost use Rattle.stream.specs.Read.{log_commands};
ghost use Rattle.stream.specs.Output.{answer_to, measured, Stores};
ghost use Rattle.stream.specs.Pack.{packed_words, or_none, IsRead, pack as Pack·pack};
ghost use Rattle.packer.specs.Inside.{writes_of, values, Begins, Stops, SizedGroup};
ghost use Rattle.packer.specs.Inside.{GroupFits, PutGroup};

use commands::{command_at, command_of_port, port_parameters};
use stream::{MOST_WORDS, Refusal, Refused, refused_at};

// A port write of a log: an address and a value.
type Write = [u32; 2];

// How many commands a command word holds. Its loops end early where the log does.
const SLOTS: usize = 4;

// The command that begins at the next write: how many parameters it takes. `next` goes on behind it. "first bad pair (5
// before 6), 8"
fn next_command(log: &[Write], next: &mut usize) -> Result<usize, Refused>
    requires few { length log.now ≤ 4096 }
    requires within { next.old < length log.now }
    ensures { MatchResult result
        (Begins (writes_of log.now) next.old next.new)
        (Stops (writes_of log.now) next.old) }
{
    let first = *next;
    let [address, _] = log[first];
    let Some(count) = port_parameters(address) else {
        return Err(refused_at(Refusal::NoPort, first));
    };
    // Write by write, so that the next command can be read before the number of parameters is known: where that number is
    // added, packing takes up to 2 ns a write longer.
    *next += 1;
    for _parameter in 1..count {
        let Some([other, _]) = log.get(*next) else {
            return Err(refused_at(Refusal::Incomplete, first));
        };
        if *other != address {
            let refusal = if command_at(*other) == 0 {
                Refusal::NoPort
            } else {
                Refusal::OtherPort
            };
            return Err(refused_at(refusal, *next));
        }
        *next += 1;
    }
    Ok(usize::from(count))
}

// The commands from the next write on that one command word holds, four or the last ones: how many words they are packed
// into. `next` goes on behind them.
fn measure_group(log: &[Write], next: &mut usize) -> Result<usize, Refused>
    requires few { length log.now ≤ 4096 }
    requires within { next.old < length log.now }
    ensures { MatchResult result
        (SizedGroup (writes_of log.now) next.old next.new)
        (Stops (writes_of log.now) next.old) }
{
    let mut size = 0;
    let mut none = false;
    for _slot in 0..SLOTS {
        if log.len() <= *next {
            break;
        }
        let count = next_command(log, next)?;
        size += count;
        none = count == 0;
    }
    Ok(1 + size + usize::from(none))
}

// How many words the log is packed into.
fn measure(log: &[Write]) -> Result<usize, Refused>
    requires { length log.now ≤ 4096 }
    ensures { answer_to result ≡ measured packed_words (log_commands (writes_of log.now)) }
{
    let mut next = 0;
    let mut total = 0;
    // a group says where the next begins
    while next < log.len() {
        total += measure_group(log, &mut next)?;
    }
    Ok(total)
}

// The values of some writes into as many words. By index: of a `zip` over `iter_mut` a proof knows no word that is written.
fn put_values(writes: &[Write], words: &mut [u32])
    requires { length writes.now ≡ length words.old }
    ensures { words.new ≡ values (writes_of writes.now) }
{
    for (j, [_, value]) in writes.iter().enumerate() {
        words[j] = *value;
    }
}

// A command word with one command more. Shifted: where four bytes are stored one by one and read as a word
// (`from_le_bytes`), packing takes 4 to 14 % longer.
fn with_byte(word: u32, byte: u8, slot: usize) -> u32
    requires slot_bound { slot < 4 }
    requires word_bound { word < 256 ^ slot }
    ensures value { result ≡ word + 256 ^ slot * byte }
    ensures upper_bound { result < 256 ^ (slot + 1) }
{
    word + (u32::from(byte) << (8 * slot))
}

// The packed words of the commands from the next write of an accepted log on that one command word holds, into the first
// words of a buffer: how many they are. `next` goes on behind the commands.
fn put_group(log: &[Write], next: &mut usize, words: &mut [u32]) -> usize
    requires { GroupFits (writes_of log.now) next.old words.old }
    ensures { PutGroup (writes_of log.now) next.old next.new words.old words.new result }
{
    let mut word = 0;
    let mut size = 1;
    let mut none = false;
    for slot in 0..SLOTS {
        if log.len() <= *next {
            break;
        }
        let [address, _] = log[*next];
        let byte = command_of_port(address);
        let count = commands::count(byte);
        // Told apart, so that behind a command without parameters the next can be read at once: up to 3 ns a write.
        if count == 0 {
            *next += 1;
        } else {
            put_values(&log[*next..*next + count], &mut words[size..size + count]);
            *next += count;
            size += count;
        }
        word = with_byte(word, byte, slot);
        none = count == 0;
    }
    words[0] = word;
    if none {
        words[size] = 0;
        size += 1;
    }
    size
}

// The packed words of an accepted log.
fn put_log(log: &[Write], buffer: &mut [u32])
    requires few { length log.now ≤ 4096 }
    requires read { IsRead (log_commands (writes_of log.now)) }
    requires fits { length (packed_words (or_none (log_commands (writes_of log.now))))
        ≤ length buffer.old }
    ensures { buffer.new
        ≡ over (packed_words (or_none (log_commands (writes_of log.now)))) buffer.old }
{
    let mut next = 0;
    let mut to = 0;
    // a group says where the next begins
    while next < log.len() {
        to += put_group(log, &mut next, &mut buffer[to..]);
    }
}

// A log: "pack 7, then first bad pair (5 before 6), 8, 9, 10".
pub fn pack(log: &[u32], output: &mut [u32]) -> Result<u32, Refused>
    ensures { Stores (Pack·pack (length output.old) log.now) (answer_to result)
        output.old output.new }
{
    if log.len() % 2 == 1 || MOST_WORDS < log.len() {
        return Err(refused_at(Refusal::NoInput, 0));
    }
    let (writes, _) = log.as_chunks::<2>();
    let length = measure(writes)?;
    if MOST_WORDS < length {
        return Err(refused_at(Refusal::TooLong, 0));
    }
    if output.len() < length {
        return Err(refused_at(Refusal::OutputTooShort, 0));
    }
    put_log(writes, output);
    Ok(length as u32)
}
