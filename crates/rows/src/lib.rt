// Value rows: the walk over a row table, the size of the value that its rows stand for, and where an array lies in the store.
#![tactic(auto)]

ghost use Rattle.std.specs.Prelude.{◌≡◌, ◌+◌, ◌≤◌, length, eqb};
ghost use Rattle.refusal.specs.Outcome.{accepted, test, map, reason, row as at_row};
ghost use Rattle.refusal.specs.Meaning.{outcome_of};
ghost use Rattle.value.specs.Kinds.{kind_of};
ghost use Rattle.tables.specs.Row.{row_at};
ghost use Rattle.rows.specs.Walk.{check_row, walk_children, walk_row, count_holds, walk};
ghost use Rattle.rows.specs.Size.{compute_size_of, AtMost, most_own_size, own_size_at, child_sizes, ChildrenHold};
ghost use Rattle.rows.specs.Locate.{look_up, elements_part, locate_array, PartOf};
ghost use Rattle.rows.specs.Meaning.{located};

use refusal::Refusal;
use value::Kind;

// A part of the store: its first byte, and how many.
#[derive(Clone, Copy, Debug, PartialEq, Eq)]
pub struct Located {
    pub start: usize,
    pub size: usize,
}

// 13 where the kind's rule is not kept, then 14 where the elements are not held, else the children that the row wants.
fn check_rule(kept: bool, held: bool, count: u64, row: usize) -> Result<u64, Refusal>
    ensures { outcome_of result ≡ test kept (reason 13 (at_row row)) (λ _. test held (reason 14 (at_row row)) (λ _. accepted count)) }
{
    refusal::accept_if(kept, refusal::at_row(refusal::ROW_MALFORMED, row))?;
    refusal::accept_if(held, refusal::at_row(refusal::ARRAY_OUTSIDE_STORE, row))?;
    Ok(count)
}

// A row by itself, which may reach to the end: 13, then 14, else the children that it wants. No sum wraps.
#[tactic(auto, using(crate::proofs::Laws::row_out), unfolding(crate::specs::Walk::check_row))]
fn check_row(rows: &[u64], store: &[u8], row: usize, end: usize) -> Result<u64, Refusal>
    requires { row ≤ end }
    ensures { outcome_of result ≡ check_row (row_at rows.now row) (length store.now) row end }
{
    let kind = tables::kind_at(rows, row);
    let span = tables::span_at(rows, row);
    let word2 = tables::word2_at(rows, row);
    let word3 = tables::word3_at(rows, row);
    let leaf = span == 1;
    let unused = word3 == 0;
    if span < 1 || span > (end - row) as u64 {
        return Err(refusal::at_row(refusal::ROW_MALFORMED, row));
    }
    match Kind::of_word(kind) {
        Some(Kind::Constant) => check_rule(leaf && word2 == 0 && unused, true, 0, row),
        Some(Kind::Number(n)) => check_rule(n.holds(word2) && leaf && unused, true, 0, row),
        Some(Kind::Array | Kind::Tuple) => check_rule(unused, true, word2, row),
        Some(Kind::Elements(e)) => {
            let width = e.width() as usize;
            let held = packed::within(store.len(), word3 as usize, word2 as usize, width);
            check_rule(leaf, held, 0, row)
        }
        Some(Kind::Union) => check_rule(unused, true, 1, row),
        None => Err(refusal::at_row(refusal::ROW_MALFORMED, row)),
    }
}

// A row's own bytes, without its children's.
fn own_size(rows: &[u64], row: usize) -> u64
    requires { own_size_at rows.now row ≤ most_own_size }
    ensures { result ≡ own_size_at rows.now row }
{
    let count = tables::word2_at(rows, row);
    match Kind::of_word(tables::kind_at(rows, row)) {
        Some(Kind::Number(n)) => n.width(),
        Some(Kind::Array | Kind::Union) => 8,
        Some(Kind::Elements(e)) => 8 + e.width() * count,
        Some(Kind::Constant | Kind::Tuple) | None => 0,
    }
}

// GM's `ComputeSeqSum`: the sizes of so many children from row `first` on, which have passed, as their rows say.
fn compute_seq_sum(rows: &[u64], first: usize, count: u64) -> u64
    requires { ChildrenHold rows.now count first }
    ensures { result ≡ child_sizes rows.now count first }
{
    let mut sum: u64 = 0;
    let mut i = first;
    for _ in 0..count {
        sum += tables::size_at(rows, i);
        i += tables::span_at(rows, i) as usize;
    }
    sum
}

// Whether a row's fifth word is the size of its value: its own bytes and those of its children, which have passed.
fn size_holds(rows: &[u64], row: usize, count: u64) -> bool
    requires { (own_size_at rows.now row ≤ most_own_size) × ChildrenHold rows.now count (row + 1) }
    ensures { result ≡ eqb (row_at rows.now row).size (own_size_at rows.now row + child_sizes rows.now count (row + 1)) }
{
    tables::size_at(rows, row) == own_size(rows, row) + compute_seq_sum(rows, row + 1, count)
}

// The children that a row wants, from row `first` on, which are to fill the rows up to `end`. A child is called for where it is a
// parent itself: it wants children, or has rows behind its own. Calls nest once for each level, of which 4,096 rows have 4,096 at most.
// Behind its own children its size is compared, before the next child is looked at. Its span is read beside its other words, so that one
// test finds them all.
fn check_children(
    rows: &[u64],
    store: &[u8],
    parent: usize,
    first: usize,
    count: u64,
    end: usize,
) -> Result<(), Refusal>
    requires { (first ≤ end) × (end ≤ 4096) × (length store.now ≤ 1048576) }
    ensures { outcome_of result ≡ map (λ _. tt) (walk_children rows.now (walk_row rows.now store.now end) parent end count first) }
{
    let mut i = first;
    for _ in 0..count {
        if end <= i {
            return Err(refusal::at_row(refusal::ROW_MALFORMED, parent));
        }
        let span = tables::span_at(rows, i) as usize;
        let inner = check_row(rows, store, i, end)?;
        let next = i + span;
        if 0 < inner || i + 1 < next {
            check_children(rows, store, i, i + 1, inner, next)?;
        }
        if !size_holds(rows, i, inner) {
            return Err(refusal::at_row(refusal::ROW_MALFORMED, i));
        }
        i = next;
    }
    refusal::accept_if(i == end, refusal::at_row(refusal::ROW_MALFORMED, parent))
}

// Whether there are rows, not too many, and their words are there.
fn count_holds(rows: &[u64], n: usize) -> bool
    ensures { result ≡ count_holds rows.now n }
{
    0 < n && n <= tables::MOST_ROWS && tables::ROW_WIDTH * n <= rows.len()
}

// 6, 12, then the root, the only child of a table, which reaches to n exactly: 13 and 14. No table is assumed sound.
pub fn check_rows(rows: &[u64], n: usize, store: &[u8]) -> Result<(), Refusal>
    ensures { outcome_of result ≡ map (λ _. tt) (walk rows.now n store.now) }
{
    if tables::MOST_BYTES < store.len() {
        return Err(refusal::at_byte(refusal::BYTES_TOO_LONG, 0));
    }
    if !count_holds(rows, n) {
        return Err(refusal::at_row(refusal::ROW_COUNT, 0));
    }
    if tables::span_at(rows, 0) != n as u64 {
        return Err(refusal::at_row(refusal::ROW_MALFORMED, 0));
    }
    check_children(rows, store, 0, 0, 1, n)
}

// GM's `ComputeSizeOf`: 6, 12, 13, 14, else `SizeOfV` of the value that the rows stand for, which row 0 says.
pub fn compute_size_of(rows: &[u64], n: usize, store: &[u8]) -> Result<u64, Refusal>
    ensures { (outcome_of result ≡ compute_size_of rows.now n store.now) × AtMost 4293951488 (outcome_of result) }
{
    check_rows(rows, n, store)?;
    Ok(tables::size_at(rows, 0))
}

// Whether a table that passes has this row; else the refusal of this number at that row.
#[tactic(auto, unfolding(crate::specs::Locate::look_up))]
pub fn find_row(
    rows: &[u64],
    n: usize,
    store: &[u8],
    row: usize,
    number: u64,
) -> Result<(), Refusal>
    ensures { outcome_of result ≡ map (λ _. tt) (look_up number rows.now n store.now row) }
{
    check_rows(rows, n, store)?;
    refusal::accept_if(row < n, refusal::at_row(number, row))
}

// The elements of a row in the store; 18 where its kind has none.
#[tactic(auto, unfolding(crate::specs::Locate::elements_part))]
fn elements_at(rows: &[u64], row: usize) -> Result<Located, Refusal>
    requires { own_size_at rows.now row ≤ most_own_size }
    ensures { located result ≡ elements_part (kind_of (row_at rows.now row).kind) (row_at rows.now row) (reason 18 (at_row row)) }
{
    let count = tables::word2_at(rows, row);
    let start = tables::word3_at(rows, row) as usize;
    match Kind::of_word(tables::kind_at(rows, row)) {
        Some(Kind::Elements(e)) => Ok(Located {
            start,
            size: (e.width() * count) as usize,
        }),
        _ => Err(refusal::at_row(refusal::NOT_AN_ARRAY, row)),
    }
}

// Where the array of a row lies in the store: 6, 12, 13, 14, then 18.
#[tactic(auto, unfolding(crate::specs::Locate::locate_array))]
pub fn locate_array(rows: &[u64], n: usize, store: &[u8], row: usize) -> Result<Located, Refusal>
    ensures { located result ≡ locate_array rows.now n store.now row }
{
    find_row(rows, n, store, row, refusal::NOT_AN_ARRAY)?;
    elements_at(rows, row)
}

// The bytes of an array, a part of the store; the empty part at place 0 where the locator refuses.
pub fn array_bytes<'a>(rows: &[u64], n: usize, store: &'a [u8], row: usize) -> &'a [u8]
    ensures { PartOf store.entry (locate_array rows.now n store.now row) result }
{
    match locate_array(rows, n, store, row) {
        Ok(part) => &store[part.start..part.start + part.size],
        Err(_) => &store[0..0],
    }
}
