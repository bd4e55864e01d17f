// The text of the program `show`: the record of its input, and the lines that it prints.
#![tactic(auto)]

ghost use Rattle.std.specs.Prelude.{◌≡◌, ◌∷◌, [], ◌++◌, ◌+◌, ◌*◌, ◌≤◌, ◌<◌, length, take, List, ℕ};
ghost use Rattle.refusal.specs.Meaning.{location_of, reason_of};
ghost use Rattle.tables.specs.Row.{row_width, row_at};
ghost use Rattle.reading.specs.Calls.{demarshall_of, Parses};
ghost use Rattle.input.specs.Input.{most_words, words_at};
ghost use Rattle.text.specs.Digits.{digits};
ghost use Rattle.text.specs.Text.{numeral, line, lines_of, rows_text, place_text, refusal_text, most_numeral, most_line, most_place, most_refusal, most_rows_text, most_text};
ghost use Rattle.text.specs.Show.{most_rows, read_input, shown};

use reading::Parsed;
use refusal::{Place, Refusal};
use std::marker::Model;

// No text has more bytes.
pub const MOST_TEXT: usize = 107546;

// The capacity with which a record is read.
const CAPACITY: usize = 1024;

// The text so far: the first `len` of the bytes. Its methods cannot fail. `write!` can, and no clause of it says when, so the text would not be
// promised for every input.
#[derive(Drop)]
pub struct Text {
    bytes: [u8; MOST_TEXT],
    len: usize,
}

impl Model for Text {
    ghost Value = { List ℕ };

    ghost view = { λ t. take t.len t.bytes };

    ghost invariant = { λ t. t.len ≤ most_text };
}

impl Text {
    // The empty text.
    pub fn new() -> Text
        ensures { result ≡ [] }
    {
        Text {
            bytes: [0; MOST_TEXT],
            len: 0,
        }
    }

    pub fn as_bytes(&self) -> &[u8]
        ensures text { result.now ≡ self.now }
        ensures within { length result.now ≤ most_text }
    {
        &self.bytes[..self.len]
    }

    // Takes back what was put.
    fn clear(&mut self)
        ensures { self.new ≡ [] }
    {
        self.len = 0;
    }

    fn push(&mut self, byte: u8)
        requires { length self.old < most_text }
        ensures { self.new ≡ self.old ++ byte ∷ [] }
    {
        self.bytes[self.len] = byte;
        self.len += 1;
    }

    fn push_str(&mut self, s: &str)
        requires { length self.old + length s.now ≤ most_text }
        ensures { self.new ≡ self.old ++ s.now }
    {
        let end = self.len + s.len();
        self.bytes[self.len..end].copy_from_slice(s.as_bytes());
        self.len = end;
    }

    #[tactic(auto, using(crate::proofs::Lines::pushed))]
    fn push_digits(&mut self, n: u64)
        requires { length self.old + length (digits n) ≤ most_text }
        ensures { self.new ≡ self.old ++ digits n }
    {
        if n < 10 {
            self.push(b'0' + n as u8);
            return;
        }
        self.push_digits(n / 10);
        self.push(b'0' + (n % 10) as u8);
    }

    // A number, and the byte behind it.
    #[tactic(auto, using(crate::proofs::Lines::pushed))]
    fn push_number(&mut self, n: u64, end: u8)
        requires { length self.old + most_numeral ≤ most_text }
        ensures text { self.new ≡ self.old ++ numeral n end }
        ensures within { length (numeral n end) ≤ most_numeral }
    {
        self.push_digits(n);
        self.push(end);
    }

    // The line of a row.
    fn push_line(&mut self, rows: &[u64], row: usize)
        requires { length self.old + most_line ≤ most_text }
        ensures text { self.new ≡ self.old ++ line (row_at rows.now row) }
        ensures within { length (line (row_at rows.now row)) ≤ most_line }
    {
        self.push_number(tables::kind_at(rows, row), b' ');
        self.push_number(tables::span_at(rows, row), b' ');
        self.push_number(tables::word2_at(rows, row), b' ');
        self.push_number(tables::word3_at(rows, row), b' ');
        self.push_number(tables::size_at(rows, row), b'\n');
    }

    // The lines of rows 0 to n − 1.
    fn push_lines(&mut self, rows: &[u64], n: usize)
        requires { length self.old + most_line * n ≤ most_text }
        ensures { self.new ≡ self.old ++ lines_of rows.now n }
    {
        for row in 0..n {
            self.push_line(rows, row);
        }
    }

    // The row count and the rows.
    fn push_rows(&mut self, rows: &[u64], n: usize)
        requires { length self.old + most_rows_text n ≤ most_text }
        ensures { self.new ≡ self.old ++ rows_text rows.now n }
    {
        self.push_str("rows ");
        self.push_number(n as u64, b'\n');
        self.push_lines(rows, n);
    }

    // A place: what it counts, and its number.
    fn push_place(&mut self, place: Place)
        requires { length self.old + most_place ≤ most_text }
        ensures { self.new ≡ self.old ++ place_text (location_of place) }
    {
        let (name, at) = match place {
            Place::Word(at) => ("word ", at),
            Place::Byte(at) => ("byte ", at),
            Place::Row(at) => ("row ", at),
        };
        self.push_str(name);
        self.push_number(at, b'\n');
    }

    // The line of a refusal.
    fn push_refusal(&mut self, refusal: Refusal)
        requires { length self.old + most_refusal ≤ most_text }
        ensures { self.new ≡ self.old ++ refusal_text (reason_of refusal) }
    {
        self.push_str("refused ");
        self.push_number(refusal.number, b' ');
        self.push_place(refusal.place);
    }
}

// The record by its grammar words, which stand from byte 4 on. As many are read as `words` holds.
fn read_record(
    input: &[u8],
    words: &mut [u32],
    record: &[u8],
    rows: &mut [u64],
) -> Result<Parsed, Refusal>
    requires { (4 + 4 * length words.old ≤ length input.now) × (length rows.old ≡ row_width * most_rows) }
    ensures { Parses (demarshall_of (words_at input.now (length words.old)) «record».now most_rows) 0 result rows.old rows.new }
{
    packed::unpack_little_endian_uint32_seq(input, 4, words)?;
    reading::demarshall(words, record, rows)
}

// The record of an input, read whole: 19 before any other refusal.
fn read_input(input: &[u8], words: &mut [u32], rows: &mut [u64]) -> Result<Parsed, Refusal>
    requires { (length words.old ≡ most_words) × (length rows.old ≡ row_width * most_rows) }
    ensures { Parses (read_input input.now) 0 result rows.old rows.new }
{
    let layout = input::lay_out(input)?;
    let end = layout.start + layout.size;
    let record = &input[layout.start..end];
    read_record(input, &mut words[..layout.words], record, rows)
}

// All that the program does between reading and writing: the text for its input, which always has room, in place of what was there. The text
// is lent: one that is handed out is cleared and copied at each function on its way.
pub fn show(input: &[u8], text: &mut Text)
    ensures { text.new ≡ shown (read_input input.now) }
{
    let mut words = [0u32; input::MOST_WORDS];
    let mut rows = [0u64; tables::ROW_WIDTH * CAPACITY];
    text.clear();
    match read_input(input, &mut words, &mut rows) {
        Ok(parsed) => text.push_rows(&rows, parsed.rows),
        Err(refusal) => text.push_refusal(refusal),
    }
}
