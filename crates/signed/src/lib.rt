// Signed trims: the number of a row of kind 9 or 10, whose word 2 is an unsigned bit pattern in two's complement.
#![tactic(auto)]

ghost use Rattle.std.specs.Prelude.{◌≡◌, true};
ghost use Rattle.refusal.specs.Outcome.{reason, row as at_row};
ghost use Rattle.refusal.specs.Meaning.{outcome_of};
ghost use Rattle.value.specs.Kinds.{kind_of};
ghost use Rattle.tables.specs.Row.{row_at};
ghost use Rattle.rows.specs.Walk.{keeps_rule};
ghost use Rattle.signed.specs.Signed.{signed_of_row, signed_number_of};

use refusal::Refusal;
use value::{Kind, Number};

// The number of a row that keeps its kind's rule; 20 where its kind is not signed.
#[tactic(auto, unfolding(crate::specs::Signed::signed_of_row))]
fn number_at(rows: &[u64], row: usize) -> Result<i64, Refusal>
    requires { keeps_rule (kind_of (row_at rows.now row).kind) (row_at rows.now row) ≡ true }
    ensures { outcome_of result ≡ signed_of_row (kind_of (row_at rows.now row).kind) (row_at rows.now row) (reason 20 (at_row row)) }
{
    let pattern = tables::word2_at(rows, row);
    match Kind::of_word(tables::kind_at(rows, row)) {
        Some(Kind::Number(Number::Int32)) => Ok(i64::from((pattern as u32).cast_signed())),
        Some(Kind::Number(Number::Int64)) => Ok(pattern.cast_signed()),
        _ => Err(refusal::at_row(refusal::NOT_SIGNED, row)),
    }
}

// The signed number of a row: 6, 12, 13, 14, then 20. No table is assumed sound.
#[tactic(auto, unfolding(crate::specs::Signed::signed_number_of))]
pub fn signed_number(rows: &[u64], n: usize, store: &[u8], row: usize) -> Result<i64, Refusal>
    ensures { outcome_of result ≡ signed_number_of rows.now n store.now row }
{
    rows::find_row(rows, n, store, row, refusal::NOT_SIGNED)?;
    number_at(rows, row)
}
