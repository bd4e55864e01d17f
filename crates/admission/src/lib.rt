// What is decided before a record is read: refusals 1 to 7, and the capacity: that of the rows lent, or of a named one what is in force.
#![tactic(auto)]

ghost use Rattle.std.specs.Prelude.{◌≡◌, ◌*◌, ◌≤◌};
ghost use Rattle.refusal.specs.Meaning.{outcome_of};
ghost use Rattle.tables.specs.Row.{row_width};
ghost use Rattle.admission.specs.Admission.{in_force, capacity_of, check_length, admit_of};

use refusal::Refusal;
use tables::{MOST_BYTES, MOST_ROWS, ROW_WIDTH};

// The capacity of a check for which none is named.
pub const CHECK_ROWS: usize = 1024;

// The capacity in force where this one is named: one above 4,096 counts as 4,096.
pub fn in_force(named: usize) -> usize
    ensures { (result ≡ in_force named) × (result ≤ 4096) }
{
    named.min(MOST_ROWS)
}

// The capacity of a slice of this many words: the rows that it has, at most 4,096.
pub fn capacity_of(words: usize) -> usize
    ensures { (result ≡ capacity_of words) × (result ≤ 4096) × (row_width * result ≤ words) }
{
    in_force(words / ROW_WIDTH)
}

// 6 of the record.
pub fn check_length(bytes: &[u8]) -> Result<(), Refusal>
    ensures { outcome_of result ≡ check_length bytes.now }
{
    refusal::accept_if(
        bytes.len() <= MOST_BYTES,
        refusal::at_byte(refusal::BYTES_TOO_LONG, 0),
    )
}

// 1 to 5 of the grammar, 6 of the record, 7 of the index.
#[tactic(auto, unfolding(crate::specs::Admission::admit_of))]
pub fn admit(grammar: &[u32], bytes: &[u8], index: usize) -> Result<(), Refusal>
    ensures { outcome_of result ≡ admit_of grammar.now bytes.now index }
{
    grammar::check_grammar(grammar)?;
    check_length(bytes)?;
    refusal::accept_if(
        index <= bytes.len(),
        refusal::at_byte(refusal::INDEX_PAST_END, index),
    )
}
