// The entries for C: packer and unpacker on byte slices, and the engine's calls. Document 01, "Packer and unpacker can
// be called from our C editor on byte slices." `bindings/c/nauvelppi.h` declares them.
#![tactic(auto)]

ghost use Rattle.std.specs.Prelude.{◌≡◌, length};
ghost use Rattle.stream.specs.Command.{write};
ghost use Rattle.stream.specs.Feed.{place_of};
ghost use Rattle.stream.specs.Output.{answer_to};
ghost use Rattle.stream.specs.Pack.{pack};
ghost use Rattle.stream.specs.Unpack.{unpack};
ghost use Rattle.conversions.specs.Convert.{convert, longest_output};
ghost use Rattle.state.specs.Fresh.{start};
ghost use Rattle.registers.specs.Registers.{read_status, read_clip_matrix, read_vector_matrix, read_overflow};
ghost use Rattle.registers.specs.Registers.{clear_error, clear_overflow};
ghost use Rattle.execute.specs.Call.{machine_of, reply_of, GivenBack, word_reply, port_reply};
ghost use Rattle.execute.specs.Call.{fed_of, FirstGivenBack, words_reply};
ghost use Rattle.nauvelppi.specs.InPlace.{in_place};
ghost use Rattle.nauvelppi.specs.Bytes.{on_all_bytes, StoresBytes};

use conversions::convert_bytes;
use engine::{feed_words, port_write, word, word_in_place};
use registers::{
    CornerAnswer, FlagAnswer, MatrixAnswer, StatusAnswer, clear_error, clear_overflow, clip_matrix,
    overflow, status, vector_matrix,
};
use state::{Answer, Engine, ListAnswer};
use stream::{
    Form, OutputAnswer, Refusal, Refused, call_number, longest_list, longest_log, refused_at,
};
use words::write_words;

// A log is packed to a list, and a packed list is unpacked to a log. Both are bytes, little-endian words;
// `words` is lent for those of the output.
fn convert_to(
    form: Form,
    input: &[u8],
    words: &mut [u32],
    output: &mut [u8],
) -> Result<u32, Refused>
    requires { length words.old ≡ longest_output form }
    ensures { StoresBytes (on_all_bytes (convert form) (length output.old) input.now)
        (answer_to result) output.old output.new }
{
    if output.len() % 4 != 0 {
        return Err(refused_at(Refusal::NoInput, 0));
    }
    let capacity = (output.len() / 4).min(words.len());
    let length = convert_bytes(form, input, &mut words[..capacity])?;
    write_words(&words[..length as usize], output);
    Ok(length)
}

// A log as bytes is packed to a list as bytes, little-endian words both. Two entries over one function, for C's two names.
#[unsafe(no_mangle)]
pub extern "C" fn nauvelppi_pack(log: &[u8], output: &mut [u8]) -> OutputAnswer
    ensures { StoresBytes (on_all_bytes pack (length output.old) log.now) result
        output.old output.new }
{
    let mut list = longest_list();
    convert_to(Form::Log, log, &mut list, output).into()
}

// A list as bytes is unpacked to a log as bytes, little-endian words both.
#[unsafe(no_mangle)]
pub extern "C" fn nauvelppi_unpack(list: &[u8], output: &mut [u8]) -> OutputAnswer
    ensures { StoresBytes (on_all_bytes unpack (length output.old) list.now) result
        output.old output.new }
{
    let mut log = longest_log();
    convert_to(Form::Packed, list, &mut log, output).into()
}

// The fresh engine with these rooms: 1 to 6,144 vertices and 1 to 2,048 polygons.
#[unsafe(no_mangle)]
pub extern "C" fn nauvelppi_start(vertices: usize, polygons: usize) -> Answer
    ensures { result ≡ start vertices polygons }
{
    Engine::start(vertices, polygons)
}

// One packed word, as `engine::word`: refused with 1, 2, 4 or 3, in this order.
#[unsafe(no_mangle)]
pub extern "C" fn nauvelppi_word(
    e: Engine,
    w: u32,
    vertices: &mut [i32],
    polygons: &mut [u32],
) -> Answer
    ensures reply { reply_of result vertices.new polygons.new
        ≡ word_reply (machine_of e vertices.old polygons.old) w }
    ensures given_back { GivenBack e result }
{
    word(e, w, vertices, polygons)
}

// One port write, as `engine::port_write`: refused with 1, 2, 5, 4 or 6, in this order.
#[unsafe(no_mangle)]
pub extern "C" fn nauvelppi_port_write(
    e: Engine,
    address: u32,
    value: u32,
    vertices: &mut [i32],
    polygons: &mut [u32],
) -> Answer
    ensures reply { reply_of result vertices.new polygons.new
        ≡ port_reply (machine_of e vertices.old polygons.old) (write address value) }
    ensures given_back { GivenBack e result }
{
    port_write(e, address, value, vertices, polygons)
}

// What the entry that updates the caller's own record answers: 0, or the number that it refuses with; a place. For C.
#[repr(C)]
#[derive(Clone, Copy)]
pub struct CallAnswer {
    pub number: u32,
    pub place: u32,
}

// One packed word on the caller's own record, which becomes the engine that `word` answers. Refused as `word` is, and
// then the record and both buffers stay as they were.
#[unsafe(no_mangle)]
pub extern "C" fn nauvelppi_word_in_place(
    engine: &mut Engine,
    w: u32,
    vertices: &mut [i32],
    polygons: &mut [u32],
) -> CallAnswer
    ensures reply { reply_of (in_place result engine.new) vertices.new polygons.new
        ≡ word_reply (machine_of engine.old vertices.old polygons.old) w }
    ensures given_back { GivenBack engine.old (in_place result engine.new) }
{
    let refusal = word_in_place(engine, w, vertices, polygons);
    CallAnswer {
        number: call_number(refusal),
        place: 0,
    }
}

// A whole list in one call, as `engine::feed_words`: refused with 1, 2, and then with the first refused word's number.
#[unsafe(no_mangle)]
pub extern "C" fn nauvelppi_words(
    e: Engine,
    words: &[u32],
    vertices: &mut [i32],
    polygons: &mut [u32],
) -> ListAnswer
    ensures reply { fed_of result vertices.new polygons.new
        ≡ words_reply (machine_of e vertices.old polygons.old) words.now }
    ensures place_value { result.place ≡ place_of result.number result.taken }
    ensures first_given_back { FirstGivenBack e result }
{
    feed_words(e, words, vertices, polygons)
}

// The status word, as `registers::status`.
#[unsafe(no_mangle)]
pub extern "C" fn nauvelppi_status(e: Engine) -> StatusAnswer
    ensures { result ≡ read_status e }
{
    status(&e)
}

// The clip matrix, as `registers::clip_matrix`.
#[unsafe(no_mangle)]
pub extern "C" fn nauvelppi_clip_matrix(e: Engine) -> MatrixAnswer
    ensures { result ≡ read_clip_matrix e }
{
    clip_matrix(&e)
}

// The 3x3 corner of the vector matrix, as `registers::vector_matrix`.
#[unsafe(no_mangle)]
pub extern "C" fn nauvelppi_vector_matrix(e: Engine) -> CornerAnswer
    ensures { result ≡ read_vector_matrix e }
{
    vector_matrix(&e)
}

// The overflow flag, as `registers::overflow`.
#[unsafe(no_mangle)]
pub extern "C" fn nauvelppi_overflow(e: Engine) -> FlagAnswer
    ensures { result ≡ read_overflow e }
{
    overflow(&e)
}

// The error flag is cleared, as `registers::clear_error`.
#[unsafe(no_mangle)]
pub extern "C" fn nauvelppi_clear_error(e: Engine) -> Answer
    ensures { result ≡ clear_error e }
{
    clear_error(e)
}

// The overflow flag is cleared, as `registers::clear_overflow`.
#[unsafe(no_mangle)]
pub extern "C" fn nauvelppi_clear_overflow(e: Engine) -> Answer
    ensures { result ≡ clear_overflow e }
{
    clear_overflow(e)
}
