// Packer and unpacker over the form of the input, and on input that is given as bytes.
#![tactic(auto)]

ghost use Rattle.std.specs.Prelude.{length};
ghost use Rattle.stream.specs.Output.{answer_to, on_bytes, Stores};
ghost use Rattle.conversions.specs.Convert.{convert};

use packer::pack;
use stream::{Form, Refusal, Refused, is_input, longest_list, refused_at};
use unpacker::unpack;
use words::read_words;

// A log is packed to a list, and a packed list is unpacked to a log.
fn convert_words(form: Form, input: &[u32], output: &mut [u32]) -> Result<u32, Refused>
    ensures { Stores (convert form (length output.old) input.now) (answer_to result)
        output.old output.new }
{
    match form {
        Form::Packed => unpack(input, output),
        Form::Log => pack(input, output),
    }
}

// The same of an input that is given as bytes, little-endian words; 7 where it is none.
pub fn convert_bytes(form: Form, input: &[u8], output: &mut [u32]) -> Result<u32, Refused>
    ensures { Stores (on_bytes (convert form (length output.old)) input.now) (answer_to result)
        output.old output.new }
{
    if !is_input(form, input.len()) {
        return Err(refused_at(Refusal::NoInput, 0));
    }
    let mut words = longest_list();
    read_words(input, &mut words);
    convert_words(form, &words[..input.len() / 4], output)
}
