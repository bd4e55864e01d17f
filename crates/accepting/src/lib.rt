// Accepting: whether a record is accepted whole, and no more. Most strays are too short for any value, and are told by their length.
#![tactic(auto)]

ghost use Rattle.std.specs.Prelude.{◌≡◌, true};
ghost use Rattle.value.specs.Least.{below_least};
ghost use Rattle.readers.specs.Root.{read_root};
ghost use Rattle.accepting.specs.Accepts.{verdict_named, verdict_of, verdict, accepts_of};

use refusal::Refusal;
use tables::{MOST_BYTES, MOST_ROWS};

// Whether the record is accepted, with the values begun to tell.
#[derive(Clone, Copy, Debug, PartialEq, Eq)]
pub struct Verdict {
    pub accepted: bool,
    pub begun: usize,
}

// A no without a walk.
const UNREAD: Verdict = Verdict {
    accepted: false,
    begun: 0,
};

// Whether so many bytes are fewer than the least length, or there is none.
#[tactic(auto, unfolding(value::specs::Least::below_least))]
fn below_least(least: Option<u64>, len: usize) -> bool
    ensures { result ≡ below_least least len }
{
    least.is_none_or(|least| (len as u64) < least)
}

// The walk: a try at the largest capacity.
fn walk(grammar: &[u32], record: &[u8]) -> Verdict
    ensures { verdict_named result ≡ verdict (read_root grammar.now «record».now 0 4096 true) }
{
    match reading::try_whole(grammar, record, MOST_ROWS) {
        Ok(end) => Verdict {
            accepted: true,
            begun: end.begun,
        },
        Err(e) => Verdict {
            accepted: false,
            begun: e.state.begun,
        },
    }
}

// Whether the record is accepted whole at the largest capacity. A record too long, or shorter than every value of the grammar, is not walked.
#[tactic(auto, using(crate::proofs::Laws::accepts_steps))]
pub fn accepts(grammar: &[u32], record: &[u8]) -> Result<Verdict, Refusal>
    ensures { verdict_of result ≡ accepts_of grammar.now «record».now }
{
    let least = least::least_length(grammar)?;
    if MOST_BYTES < record.len() || below_least(least, record.len()) {
        return Ok(UNREAD);
    }
    Ok(walk(grammar, record))
}
