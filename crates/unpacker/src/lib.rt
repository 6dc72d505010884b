// The unpacker: a packed list as port writes, address and value pairs. Document 01, "Packer and unpacker". One pass
// over the list measures, one writes.
#![tactic(auto)]

ghost use Rattle.std.specs.Prelude.{◌≡◌, ◌+◌, ◌*◌, ◌^◌, ◌≤◌, ◌<◌, length};
ghost use Rattle.std.proofs.lemmas.List.Edits.{sets};
ghost use Rattle.words.specs.Words.{over};
ghost use Rattle.commands.specs.Commands.{port};
ghost use Rattle.stream.specs.Input.{most_words};
ghost use Rattle.stream.specs.Read.{list_commands};
ghost use Rattle.stream.specs.Output.{answer_to, measured, Stores};
ghost use Rattle.stream.specs.Pack.{IsRead};
ghost use Rattle.stream.specs.Unpack.{writes_to, log_of, commands_log, unpack_from};
ghost use Rattle.stream.specs.Unpack.{unpack as Unpack·unpack};
ghost use Rattle.unpacker.specs.Inside.{extent_of, values_of, log_from, WordFits, PutWord};

use commands::{parameters, port_of};
use stream::{MOST_WORDS, Refusal, Refused, refused_at, writes_for};

// What the commands of a command word take: the words behind it that are theirs, its dummy among them; and how many
// port writes they are.
#[derive(Clone, Copy)]
struct Extent {
    words: usize,
    writes: usize,
}

// Where reading and writing go on.
#[derive(Clone, Copy)]
struct Places {
    next: usize,
    to: usize,
}

// The extent of the commands of a command word; none where the word has a hole.
fn extent_of(word: u32) -> Option<Extent>
    ensures { result ≡ extent_of word }
{
    let mut words = 0;
    let mut writes = 0;
    let mut dummy = false;
    let mut ended = false;
    for byte in word.to_le_bytes() {
        match parameters(byte) {
            None => ended = true,
            Some(_) if ended => return None,
            Some(count) => {
                words += count as usize;
                writes += writes_for(count as usize);
                dummy = count == 0;
            }
        }
    }
    Some(Extent {
        words: words + usize::from(dummy),
        writes,
    })
}

// How many words the list from a place on is unpacked to, where the output is long enough; nothing is stored yet.
fn measure(words: &[u32], place: usize) -> Result<u32, Refused>
    requires { length words.now ≤ most_words }
    ensures { answer_to result ≡ measured commands_log (list_commands place words.now) }
{
    let mut i = place;
    let mut total = 0;
    // a command word says where the next stands
    while i < words.len() {
        let Some(extent) = extent_of(words[i]) else {
            return Err(refused_at(Refusal::Hole, i));
        };
        let next = i + 1;
        if words.len() - next < extent.words {
            return Err(refused_at(Refusal::Incomplete, i));
        }
        i = next + extent.words;
        total += 2 * extent.writes;
    }
    Ok(total as u32)
}

// The port writes of a command with these parameters, into the buffer from `to` on; where the next goes. "0 for commands
// without parameters"
fn put_command(byte: u8, parameters: &[u32], buffer: &mut [u32], to: usize) -> usize
    requires { to + 2 * length (values_of parameters.now) ≤ length buffer.old }
    ensures end { result ≡ to + 2 * length (values_of parameters.now) }
    ensures buffer_after { buffer.new
        ≡ sets buffer.old to (log_of (writes_to (port byte) (values_of parameters.now))) }
{
    let address = port_of(byte);
    if parameters.is_empty() {
        buffer[to] = address;
        buffer[to + 1] = 0;
        return to + 2;
    }
    // By index: of a slice that was lent in pairs, as by `as_chunks_mut`, a proof knows the length alone.
    for (j, value) in parameters.iter().enumerate() {
        buffer[to + 2 * j] = address;
        buffer[to + 2 * j + 1] = *value;
    }
    to + 2 * parameters.len()
}

// The port writes of the commands of the i-th word, a command word of an accepted list, into the buffer from `to` on.
fn put_word(words: &[u32], i: usize, buffer: &mut [u32], to: usize) -> Places
    requires { WordFits words.now i to buffer.old }
    ensures { PutWord words.now i to buffer.old buffer.new result }
{
    let mut queue = words[i];
    let mut next = i + 1;
    let mut end = to;
    let mut dummy = false;
    // Over the word and not over its bytes: that is unrolled, and 34h took 1.2 times as long.
    while let Some(count) = parameters((queue % 256) as u8) {
        let behind = next + count as usize;
        end = put_command((queue % 256) as u8, &words[next..behind], buffer, end);
        next = behind;
        dummy = count == 0;
        queue /= 256;
    }
    Places {
        next: next + usize::from(dummy),
        to: end,
    }
}

// The port writes of an accepted list from a place on.
fn put_list(words: &[u32], place: usize, buffer: &mut [u32])
    requires read { IsRead (list_commands place words.now) }
    requires words_in_bounds { length (log_from place words.now) ≤ length buffer.old }
    ensures { buffer.new ≡ over (log_from place words.now) buffer.old }
{
    let mut i = place;
    let mut to = 0;
    // a command word says where the next stands
    while i < words.len() {
        Places { next: i, to } = put_word(words, i, buffer, to);
    }
}

// The list from a place on: "unpack 7, first 3, 8, 10". A place past the words is the end; places of refusals count the
// words from the first.
pub fn unpack_from(words: &[u32], place: usize, output: &mut [u32]) -> Result<u32, Refused>
    ensures { Stores (unpack_from place (length output.old) words.now) (answer_to result)
        output.old output.new }
{
    if MOST_WORDS < words.len() {
        return Err(refused_at(Refusal::NoInput, 0));
    }
    let length = measure(words, place)?;
    if output.len() < length as usize {
        return Err(refused_at(Refusal::OutputTooShort, 0));
    }
    put_list(words, place, output);
    Ok(length)
}

// Document 01's list reader: the caller's words, and a place in them.
#[derive(Clone, Copy, Debug, PartialEq, Eq)]
pub struct ListReader<'a> {
    pub words: &'a [u32],
    pub place: usize,
}

impl<'a> ListReader<'a> {
    // A reader at the first word.
    pub fn new(words: &'a [u32]) -> Self
        ensures { (result.words ≡ words.entry) × (result.place ≡ 0) }
    {
        Self { words, place: 0 }
    }

    // The list from the reader's place on.
    pub fn unpack(self, output: &mut [u32]) -> Result<u32, Refused>
        ensures { Stores
            (unpack_from self.entry.place (length output.old) self.entry.words.now)
            (answer_to result) output.old output.new }
    {
        unpack_from(self.words, self.place, output)
    }
}

// The whole list, by a reader at its first word.
pub fn unpack(words: &[u32], output: &mut [u32]) -> Result<u32, Refused>
    ensures { Stores (Unpack·unpack (length output.old) words.now) (answer_to result)
        output.old output.new }
{
    ListReader::new(words).unpack(output)
}
