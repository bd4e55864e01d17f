// The layout of the input of the program `show`.
#![tactic(auto)]

ghost use Rattle.std.specs.Prelude.{◌≡◌, ◌≤◌, min};
ghost use Rattle.refusal.specs.Meaning.{reason_of, outcome_of};
ghost use Rattle.refusal.specs.Outcome.{reason, byte};
ghost use Rattle.input.specs.Input.{most_input, most_words, count_at, record_after, layout_of};

use refusal::Refusal;

// How the input is laid out: so many words from byte 4 on, and the record, where it starts and how long it is.
#[derive(Clone, Copy, Debug, PartialEq, Eq)]
pub struct Layout {
    pub words: usize,
    pub start: usize,
    pub size: usize,
}

// The bytes of the longest input.
pub const MOST_INPUT: usize = 65536;

// The most grammar words.
pub const MOST_WORDS: usize = 1794;

fn not_laid_out(len: usize) -> Refusal
    ensures { reason_of result ≡ reason 19 (byte (min len most_input)) }
{
    refusal::at_byte(refusal::INPUT_LAYOUT, len.min(MOST_INPUT))
}

// The 4-byte number at an index; 19 where it is not there.
#[tactic(auto, unfolding(crate::specs::Input::count_at, packed::specs::Packed::present))]
fn count_at(input: &[u8], index: usize) -> Result<u32, Refusal>
    ensures { outcome_of result ≡ count_at input.now index }
{
    packed::unpack_little_endian_uint32(input, index).map_err(|_| not_laid_out(input.len()))
}

// Behind so many words: the record length, then the record, with which the input ends.
#[tactic(auto, unfolding(crate::specs::Input::record_after))]
fn record_after(input: &[u8], words: usize) -> Result<Layout, Refusal>
    requires { words ≤ most_words }
    ensures { outcome_of result ≡ record_after input.now words }
{
    let start = 8 + 4 * words;
    let size = count_at(input, 4 + 4 * words)? as usize;
    if start + size == input.len() {
        Ok(Layout { words, start, size })
    } else {
        Err(not_laid_out(input.len()))
    }
}

// The layout of the input. The word count is tested before it is multiplied.
#[tactic(auto, unfolding(crate::specs::Input::layout_of))]
pub fn lay_out(input: &[u8]) -> Result<Layout, Refusal>
    ensures { outcome_of result ≡ layout_of input.now }
{
    if MOST_INPUT < input.len() {
        return Err(not_laid_out(input.len()));
    }
    let words = count_at(input, 0)? as usize;
    if MOST_WORDS < words {
        return Err(not_laid_out(input.len()));
    }
    record_after(input, words)
}
