// Comparing: whether two records are of the same route.
#![tactic(auto)]

ghost use Rattle.std.specs.Prelude.{◌≡◌, true, ◌↔◌};
ghost use Rattle.refusal.specs.Outcome.{map};
ghost use Rattle.refusal.specs.Meaning.{outcome_of};
ghost use Rattle.comparing.specs.SameRoute.{counted_bytes, same_route_of, Compares};

use refusal::Refusal;
use tables::MOST_ROWS;

// Why there is no answer: the refusal of the grammar, of the first record or of the second.
#[derive(Clone, Copy, Debug, PartialEq, Eq)]
pub enum Unread {
    Grammar(Refusal),
    First(Refusal),
    Second(Refusal),
}

// The loop runs to the end also behind a byte that differs, so that it is compiled to many bytes at a time.
fn same_bytes(a: &[u8], b: &[u8]) -> bool
    ensures { (a.now ≡ b.now) ↔ (result ≡ true) }
{
    if a.len() != b.len() {
        return false;
    }
    let mut same = true;
    for (x, y) in a.iter().zip(b) {
        same &= *x == *y;
    }
    same
}

// The bytes of what counts of a record: a record is the bytes of its value, so those behind the root's first field, or where it has none, all.
fn counted_bytes<'a>(grammar: &[u32], bytes: &'a [u8]) -> Result<&'a [u8], Refusal>
    ensures { map (λ s. s.now) (outcome_of result) ≡ counted_bytes grammar.now bytes.now }
{
    let end = readers::check_first_field(grammar, bytes, MOST_ROWS)?;
    Ok(&bytes[end.at..])
}

// Whether two records under one grammar are of the same route.
pub fn same_route(grammar: &[u32], first: &[u8], second: &[u8]) -> Result<bool, Unread>
    ensures { Compares grammar.now first.now second.now (same_route_of result) }
{
    grammar::check_grammar(grammar).map_err(Unread::Grammar)?;
    let a = counted_bytes(grammar, first).map_err(Unread::First)?;
    let b = counted_bytes(grammar, second).map_err(Unread::Second)?;
    Ok(same_bytes(a, b))
}
