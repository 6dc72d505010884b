// The text that the programs print, put into a buffer of bytes. Every function here is for the crates above, whose
// buffers are long enough.
#![tactic(auto, using(crate::proofs::PutLaws::put_rules, std::proofs::lemmas::Grind::common_steps))]

ghost use Rattle.std.specs.Prelude.{◌≡◌, ◌+◌, ◌*◌, ◌/◌, ◌≤◌, length};
ghost use Rattle.stream.specs.Input.{most_words, longest_log};
ghost use Rattle.stream.specs.Command.{write};
ghost use Rattle.stream.specs.Read.{writes};
ghost use Rattle.listing.specs.Text.{decimal, hex8, number_line, write_line, write_lines, word_line, word_lines};
ghost use Rattle.listing.specs.Text.{ports_text, words_text, refused_line};
ghost use Rattle.listing.specs.Buffer.{HasRoom, empty_text, with_bytes};

// A text in a buffer that is lent: its bytes, from the buffer's first on, and how many they are.
#[derive(Drop)]
pub struct Text<'a> {
    pub buffer: &'a mut [u8],
    pub length: usize,
}

impl<'a> Text<'a> {
    // A text of no bytes.
    pub fn new(buffer: &'a mut [u8]) -> Text<'a>
        ensures { result ≡ empty_text buffer.entry }
    {
        Text { buffer, length: 0 }
    }

    // Some bytes.
    pub fn put(&mut self, bytes: &[u8])
        requires { HasRoom self.old (length bytes.now) }
        ensures { self.new ≡ with_bytes self.old bytes.now }
    {
        let end = self.length + bytes.len();
        self.buffer[self.length..end].copy_from_slice(bytes);
        self.length = end;
    }

    // A number in decimal.
    pub fn put_decimal(&mut self, n: u32)
        requires { HasRoom self.old 10 }
        ensures { self.new ≡ with_bytes self.old (decimal n) }
    {
        let mut digits = itoa::Buffer::new();
        self.put(digits.format(n).as_bytes());
    }

    // A number as eight hex digits. `io::hex`, since no clause rules out an error of a `write!` into a buffer.
    pub fn put_hex(&mut self, n: u32)
        requires { HasRoom self.old 8 }
        ensures { self.new ≡ with_bytes self.old (hex8 n) }
    {
        let mut digits = [0; 16];
        let count = io::hex(u64::from(n), 8, &mut digits);
        self.put(&digits[..count]);
    }

    // A line of a name, with the space behind it, and a number.
    #[tactic(auto, using(crate::proofs::PutLaws::put_rules), unfolding(crate::specs::Text::number_line))]
    pub fn put_number_line(&mut self, name: &[u8], n: u32)
        requires { HasRoom self.old (length name.now + 11) }
        ensures { self.new ≡ with_bytes self.old (number_line name.now n) }
    {
        self.put(name);
        self.put_decimal(n);
        self.put(b"\n");
    }

    // A line for a port write.
    #[tactic(auto, using(crate::proofs::PutLaws::put_rules), unfolding(crate::specs::Text::write_line))]
    fn put_write(&mut self, address: u32, value: u32)
        requires { HasRoom self.old 18 }
        ensures { self.new ≡ with_bytes self.old (write_line (write address value)) }
    {
        self.put_hex(address);
        self.put(b" ");
        self.put_hex(value);
        self.put(b"\n");
    }

    // A line for each port write of a log.
    fn put_writes(&mut self, log: &[u32])
        requires { HasRoom self.old (18 * (length log.now / 2)) }
        ensures { self.new ≡ with_bytes self.old (write_lines (writes log.now)) }
    {
        let (pairs, _) = log.as_chunks::<2>();
        for [address, value] in pairs {
            self.put_write(*address, *value);
        }
    }

    // "ports" and how many, then the port writes of a log.
    #[tactic(auto, using(crate::proofs::PutLaws::put_rules), unfolding(crate::specs::Text::ports_text))]
    pub fn put_ports(&mut self, log: &[u32])
        requires few { length log.now ≤ longest_log }
        requires room { HasRoom self.old (17 + 18 * (length log.now / 2)) }
        ensures { self.new ≡ with_bytes self.old (ports_text (writes log.now)) }
    {
        self.put_number_line(b"ports ", (log.len() / 2) as u32);
        self.put_writes(log);
    }

    // A line for a word.
    #[tactic(auto, using(crate::proofs::PutLaws::put_rules), unfolding(crate::specs::Text::word_line))]
    pub fn put_word_line(&mut self, word: u32)
        requires { HasRoom self.old 9 }
        ensures { self.new ≡ with_bytes self.old (word_line word) }
    {
        self.put_hex(word);
        self.put(b"\n");
    }

    // A line for each word.
    fn put_word_lines(&mut self, words: &[u32])
        requires { HasRoom self.old (9 * length words.now) }
        ensures { self.new ≡ with_bytes self.old (word_lines words.now) }
    {
        for word in words {
            self.put_word_line(*word);
        }
    }

    // "words" and how many, then the words.
    #[tactic(auto, using(crate::proofs::PutLaws::put_rules), unfolding(crate::specs::Text::words_text))]
    pub fn put_words(&mut self, words: &[u32])
        requires few { length words.now ≤ most_words }
        requires room { HasRoom self.old (17 + 9 * length words.now) }
        ensures { self.new ≡ with_bytes self.old (words_text words.now) }
    {
        self.put_number_line(b"words ", words.len() as u32);
        self.put_word_lines(words);
    }

    // "refused", the number and the place.
    #[tactic(auto, using(crate::proofs::PutLaws::put_rules), unfolding(crate::specs::Text::refused_line))]
    pub fn put_refused(&mut self, number: u32, place: u32)
        requires { HasRoom self.old 30 }
        ensures { self.new ≡ with_bytes self.old (refused_line number place) }
    {
        self.put(b"refused ");
        self.put_decimal(number);
        self.put(b" ");
        self.put_decimal(place);
        self.put(b"\n");
    }
}
