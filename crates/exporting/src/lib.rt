// Exporting: a value by its grammar as XDR (RFC 4506), from rows with their store into a lent output.
#![tactic(auto)]

ghost use Rattle.std.specs.Prelude.{◌≡◌, ◌++◌, ℕ, ◌+◌, ◌*◌, ◌^◌, ◌≤◌, ◌<◌, length, replicate};
ghost use Rattle.refusal.specs.Outcome.{map};
ghost use Rattle.refusal.specs.Meaning.{outcome_of};
ghost use Rattle.packed.specs.Packed.{put};
ghost use Rattle.big_endian.specs.BigEndian.{pack_big_endian, reverse_each};
ghost use Rattle.value.specs.Kinds.{element_width};
ghost use Rattle.value.specs.Meaning.{elements_named};
ghost use Rattle.rows.specs.Size.{most_own_size, of_row, own_at, own_from, sum_from};
ghost use Rattle.xdr.specs.Xdr.{padding, padded, xdr_size};
ghost use Rattle.exporting.specs.Own.{own_xdr, own_xdr_size, RowFits};
ghost use Rattle.exporting.specs.Export.{export_of, Exports};

use packed::PackedInt;
use refusal::Refusal;
use value::{Elements, Kind, Number};

// A row's own XDR bytes, without its children's.
fn own_size(rows: &[u64], row: usize) -> u64
    requires { of_row own_xdr_size rows.now row ≤ most_own_size }
    ensures { result ≡ of_row own_xdr_size rows.now row }
{
    let count = tables::word2_at(rows, row);
    match Kind::of_word(tables::kind_at(rows, row)) {
        Some(Kind::Number(n)) => n.width(),
        Some(Kind::Array | Kind::Union) => 4,
        Some(Kind::Elements(e)) => {
            let size = e.width() * count;
            4 + (size + xdr::padding(size))
        }
        Some(Kind::Constant | Kind::Tuple) | None => 0,
    }
}

// The XDR size of all rows: a value's XDR bytes are its rows' own, one behind the other.
fn sum_sizes(rows: &[u64], n: usize) -> u64
    requires { (n ≤ 4096) × ((j : ℕ) → j < n → of_row own_xdr_size rows.now j ≤ most_own_size) }
    ensures { result ≡ sum_from own_xdr_size rows.now 0 n }
{
    let mut sum: u64 = 0;
    for i in 0..n {
        sum += own_size(rows, i);
    }
    sum
}

// What `export_xdr` answers, without exporting: the XDR size, or the first refusal: 1 to 6, 12 to 14, 15, 16, then 17.
fn size_to_export(
    grammar: &[u32],
    rows: &[u64],
    n: usize,
    store: &[u8],
    len: usize,
    index: usize,
) -> Result<u64, Refusal>
    ensures { outcome_of result ≡ map xdr_size (export_of grammar.now rows.now n store.now len index) }
{
    sizing::size_in_grammar(grammar, rows, n, store)?;
    sizing::check_room(sum_sizes(rows, n), len, index)
}

// Puts a number, count or tag, which has room, and gives the index behind it.
fn export_number<T: PackedInt>(n: T, out: &mut [u8], index: usize) -> usize
    requires { index + T.WIDTH ≤ length out.old }
    ensures { (result ≡ index + T.WIDTH) × (out.new ≡ put out.old index (pack_big_endian T.WIDTH (T.number n))) }
{
    big_endian::pack_big_endian_into_array(n, out, index).unwrap();
    index + T::WIDTH
}

// Puts the padding behind so many bytes of elements, which has room, and gives the index behind it. A loop up to the count would be compiled
// to a call of memset, which the archive must not need.
fn export_padding(size: u64, out: &mut [u8], index: usize) -> usize
    requires { index + padding size ≤ length out.old }
    ensures { (result ≡ index + padding size) × (out.new ≡ put out.old index (replicate (padding size) 0)) }
{
    let count = xdr::padding(size) as usize;
    for i in 0..3 {
        if i < count {
            out[index + i] = 0;
        }
    }
    index + count
}

// Puts the count of an array of numbers, its elements, given as they lie in the store, and their padding, and gives the index behind it.
fn export_elements(
    count: u64,
    elements: Elements,
    src: &[u8],
    out: &mut [u8],
    index: usize,
) -> usize
    requires { (count < 256 ^ 4) × (length src.now ≡ element_width (elements_named elements) * count) × (index + (4 + (length src.now + padding (length src.now))) ≤ length out.old) }
    ensures { (result ≡ index + (4 + (length src.now + padding (length src.now)))) × (out.new ≡ put out.old index (pack_big_endian 4 count ++ padded (reverse_each (element_width (elements_named elements)) src.now count))) }
{
    let at = export_number(count as u32, out, index);
    xdr::copy_elements(elements, src, out, at).unwrap();
    export_padding(src.len() as u64, out, at + src.len())
}

// Puts a row's own XDR bytes, without its children's, and gives the index behind them.
#[tactic(auto, unfolding(crate::specs::Own::own_xdr))]
fn export_row(rows: &[u64], row: usize, store: &[u8], out: &mut [u8], index: usize) -> usize
    requires { RowFits rows.now store.now row × (index + of_row own_xdr_size rows.now row ≤ length out.old) }
    ensures { (result ≡ index + of_row own_xdr_size rows.now row) × (out.new ≡ put out.old index (own_at own_xdr rows.now store.now row)) }
{
    let word2 = tables::word2_at(rows, row);
    let place = tables::word3_at(rows, row) as usize;
    match Kind::of_word(tables::kind_at(rows, row)) {
        Some(Kind::Number(Number::Uint32 | Number::Int32)) => {
            export_number(word2 as u32, out, index)
        }
        Some(Kind::Number(Number::Uint64 | Number::Int64)) => export_number(word2, out, index),
        Some(Kind::Array | Kind::Union) => export_number(word2 as u32, out, index),
        Some(Kind::Elements(e)) => {
            let size = (e.width() * word2) as usize;
            export_elements(word2, e, &store[place..place + size], out, index)
        }
        Some(Kind::Constant | Kind::Tuple) | None => index,
    }
}

// Puts the own XDR bytes of all rows, one behind the other.
fn export_rows(rows: &[u64], n: usize, store: &[u8], out: &mut [u8], index: usize)
    requires { ((j : ℕ) → j < n → RowFits rows.now store.now j) × (index + sum_from own_xdr_size rows.now 0 n ≤ length out.old) }
    ensures { out.new ≡ put out.old index (own_from own_xdr rows.now store.now 0 n) }
{
    let mut at = index;
    for i in 0..n {
        at = export_row(rows, i, store, out, at);
    }
}

// Puts the XDR of the value of the rows at the index. What it answers is decided first, so that a refusal leaves every byte as it was.
pub fn export_xdr(
    grammar: &[u32],
    rows: &[u64],
    n: usize,
    store: &[u8],
    out: &mut [u8],
    index: usize,
) -> Result<u64, Refusal>
    ensures { Exports (export_of grammar.now rows.now n store.now (length out.old) index) index result out.old out.new }
{
    let size = size_to_export(grammar, rows, n, store, out.len(), index)?;
    export_rows(rows, n, store, out, index);
    Ok(size)
}
