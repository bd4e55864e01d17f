// Previewing: what a writing would answer and change, without writing.
#![tactic(auto)]

ghost use Rattle.std.specs.Prelude.{◌≡◌, ◌++◌, ℕ, ◌+◌, ◌≤◌, ◌<◌, length, drop};
ghost use Rattle.packed.specs.Packed.{pack_little_endian};
ghost use Rattle.rows.specs.Rule.{RowHolds};
ghost use Rattle.rows.specs.Size.{own_bytes_at, own_size_at, bytes_from, size_from};
ghost use Rattle.previewing.specs.Preview.{differing, preview_of, previewed_of};
ghost use Rattle.previewing.specs.Compared.{compared_with};

use refusal::Refusal;
use value::Kind;

// What `preview` answers: the size, and the number of output bytes whose content would differ after the writing.
#[derive(Clone, Copy, Debug, PartialEq, Eq)]
pub struct Previewed {
    pub size: u64,
    pub changed: u64,
}

// A part of a value's bytes compared with the output: the output's byte behind the last one compared, and how many differ.
#[derive(Clone, Copy, Debug, PartialEq, Eq)]
struct Compared {
    at: usize,
    changed: u64,
}

// The most places that a byte can count.
const BLOCK: usize = 255;

// At how many places the bytes of two slices of one length differ. There are at most BLOCK, so a byte holds the number. The loop has no
// other end and its counter is a byte, so that it is compiled to 16 places at once.
fn count_block(a: &[u8], b: &[u8]) -> u8
    requires { (length b.now ≤ 255) × (length a.now ≡ length b.now) }
    ensures { result ≡ differing a.now b.now }
{
    let mut changed: u8 = 0;
    for i in 0..b.len() {
        if a[i] != b[i] {
            changed += 1;
        }
    }
    changed
}

// The same of any length, block by block.
fn count_differing(a: &[u8], b: &[u8]) -> u64
    requires { length a.now ≡ length b.now }
    ensures { result ≡ differing a.now b.now }
{
    let mut changed: u64 = 0;
    let mut k: usize = 0;
    while k < b.len() {
        let size = (b.len() - k).min(BLOCK);
        changed += u64::from(count_block(&a[k..k + size], &b[k..k + size]));
        k += size;
    }
    changed
}

// Compares bytes with those of the output from `at` on.
fn compare_bytes(bytes: &[u8], out: &[u8], at: usize) -> Compared
    requires { at + length bytes.now ≤ length out.now }
    ensures { result ≡ compared_with out.now at bytes.now }
{
    let end = at + bytes.len();
    Compared {
        at: end,
        changed: count_differing(&out[at..end], bytes),
    }
}

// Compares the first width of a number's 8 bytes.
fn compare_number(n: u64, width: usize, out: &[u8], at: usize) -> Compared
    requires { (width ≤ 8) × (at + width ≤ length out.now) }
    ensures { result ≡ compared_with out.now at (pack_little_endian width n) }
{
    let mut packed = [0u8; 8];
    packing::pack_little_endian_into_array(n, &mut packed, 0).unwrap();
    compare_bytes(&packed[..width], out, at)
}

// Compares the count of an array of numbers and its bytes, as they lie in the store.
fn compare_elements(count: u64, elements: &[u8], out: &[u8], at: usize) -> Compared
    requires { at + (8 + length elements.now) ≤ length out.now }
    ensures { result ≡ compared_with out.now at (pack_little_endian 8 count ++ elements.now) }
{
    let counted = compare_number(count, 8, out, at);
    let compared = compare_bytes(elements, out, counted.at);
    Compared {
        at: compared.at,
        changed: counted.changed + compared.changed,
    }
}

// Compares a row's own bytes, without its children's.
#[tactic(auto, unfolding(rows::specs::Size::own_bytes))]
fn compare_row(rows: &[u64], row: usize, store: &[u8], out: &[u8], at: usize) -> Compared
    requires { RowHolds rows.now store.now row × (at + own_size_at rows.now row ≤ length out.now) }
    ensures { result ≡ compared_with out.now at (own_bytes_at rows.now store.now row) }
{
    let word2 = tables::word2_at(rows, row);
    let place = tables::word3_at(rows, row) as usize;
    match Kind::of_word(tables::kind_at(rows, row)) {
        Some(Kind::Number(n)) => compare_number(word2, n.width() as usize, out, at),
        Some(Kind::Array | Kind::Union) => compare_number(word2, 8, out, at),
        Some(Kind::Elements(e)) => {
            let size = (e.width() * word2) as usize;
            compare_elements(word2, &store[place..place + size], out, at)
        }
        Some(Kind::Constant | Kind::Tuple) | None => Compared { at, changed: 0 },
    }
}

// How many bytes of the output, from the index on, differ from the own bytes of all rows: a value's rows are in the order of its bytes.
fn compare_rows(rows: &[u64], n: usize, store: &[u8], out: &[u8], index: usize) -> u64
    requires { ((j : ℕ) → j < n → RowHolds rows.now store.now j) × (index + size_from rows.now 0 n ≤ length out.now) }
    ensures { result ≡ differing (drop index out.now) (bytes_from rows.now store.now 0 n) }
{
    let mut at = index;
    let mut changed: u64 = 0;
    for i in 0..n {
        let row = compare_row(rows, i, store, out, at);
        at = row.at;
        changed += row.changed;
    }
    changed
}

// What GM's `MarshallVal` would answer, and how many bytes of the output it would change. Nothing is changed.
pub fn preview(
    grammar: &[u32],
    rows: &[u64],
    n: usize,
    store: &[u8],
    out: &[u8],
    index: usize,
) -> Result<Previewed, Refusal>
    ensures { previewed_of result ≡ preview_of grammar.now rows.now n store.now out.now index }
{
    let size = sizing::size_to_write(grammar, rows, n, store, out.len(), index)?;
    let changed = compare_rows(rows, n, store, out, index);
    Ok(Previewed { size, changed })
}
