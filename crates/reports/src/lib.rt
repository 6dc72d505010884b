// What the programs write for what they read.
#![tactic(auto, using(listing::proofs::PutLaws::put_rules, std::proofs::lemmas::Grind::common_steps))]

ghost use Rattle.std.specs.Prelude.{◌≡◌, ◌+◌, ◌≤◌, length};
ghost use Rattle.io.specs.Counts.{IsPrefixLen};
ghost use Rattle.words.specs.Words.{over};
ghost use Rattle.conversions.specs.Convert.{longest_output};
ghost use Rattle.listing.specs.Buffer.{HasRoom, with_bytes};
ghost use Rattle.reports.specs.Unpack.{unpack_report};
ghost use Rattle.reports.specs.Pack.{pack_report};
ghost use Rattle.reports.specs.Inside.{output_text, longest_text, report_of};

use conversions::convert_bytes;
use listing::Text;
use stream::{Form, Refused, longest_list, longest_log};

// The words that an input was converted to: those of a list, since a log was packed; or those of a log.
fn put_output(text: &mut Text, form: Form, words: &[u32])
    requires few { length words.now ≤ longest_output form }
    requires room { HasRoom text.old (longest_text form) }
    ensures { text.new ≡ with_bytes text.old (output_text form words.now) }
{
    match form {
        Form::Packed => text.put_ports(words),
        Form::Log => text.put_words(words),
    }
}

// The report of an input, a log to be packed or a list to be unpacked; `words` is lent for the output.
fn put_report(text: &mut Text, form: Form, input: &[u8], words: &mut [u32])
    requires words_len { length words.old ≡ longest_output form }
    requires room { HasRoom text.old (longest_text form) }
    ensures puts { text.new ≡ with_bytes text.old (report_of form input.now) }
    ensures within { text.new.length ≤ text.old.length + longest_text form }
{
    match convert_bytes(form, input, &mut *words) {
        Err(Refused { refusal, place }) => text.put_refused(refusal.into(), place),
        Ok(length) => put_output(text, form, &words[..length as usize]),
    }
}

// Room for the longest report of a log: the first line, of at most 17 bytes, and 16,384 lines of 18. What it holds is
// free.
pub fn log_report_buffer() -> [u8; 294929]
    ensures { 294929 ≡ length result }
{
    [0; 294929]
}

// What the program `unpack` writes for its input, from the buffer's first byte on; how many bytes that is. Two programs,
// each with a name and a size of its own over `put_report`.
pub fn unpack_report(input: &[u8], text: &mut [u8; 294929]) -> usize
    ensures value { result ≡ length (unpack_report input.now) }
    ensures text_after { text.new ≡ over (unpack_report input.now) text.old }
    ensures prefix_len { IsPrefixLen result text.new }
{
    let mut log = longest_log();
    let mut report = Text::new(text);
    put_report(&mut report, Form::Packed, input, &mut log);
    report.length
}

// Room for the longest report of a packed list: the first line, of at most 17 bytes, and 8,192 lines of 9. What it
// holds is free.
pub fn list_report_buffer() -> [u8; 73745]
    ensures { 73745 ≡ length result }
{
    [0; 73745]
}

// What the program `pack` writes for its input, from the buffer's first byte on; how many bytes that is.
pub fn pack_report(input: &[u8], text: &mut [u8; 73745]) -> usize
    ensures value { result ≡ length (pack_report input.now) }
    ensures text_after { text.new ≡ over (pack_report input.now) text.old }
    ensures prefix_len { IsPrefixLen result text.new }
{
    let mut list = longest_list();
    let mut report = Text::new(text);
    put_report(&mut report, Form::Log, input, &mut list);
    report.length
}
