// Writing: GM's `MarshallVal` with its parts and `Marshall`, from rows with their store into a lent output.
#![tactic(auto)]

ghost use Rattle.std.specs.Prelude.{◌≡◌, ◌++◌, ℕ, ◌+◌, ◌≤◌, ◌<◌, length};
ghost use Rattle.packed.specs.Packed.{pack_little_endian, put};
ghost use Rattle.rows.specs.Rule.{RowHolds};
ghost use Rattle.rows.specs.Size.{own_bytes_at, own_size_at, bytes_from, size_from};
ghost use Rattle.sizing.specs.Writes.{marshall_val_of};
ghost use Rattle.writing.specs.Marshall.{Marshalls};

use packed::PackedInt;
use refusal::Refusal;
use value::{Kind, Number};

// GM's `MarshallUint32` and `MarshallUint64`: puts a number, a count or a tag, which has room, and gives the index behind it.
fn marshall_uint<T: PackedInt>(n: T, out: &mut [u8], index: usize) -> usize
    requires { index + T.WIDTH ≤ length out.old }
    ensures { (result ≡ index + T.WIDTH) × (out.new ≡ put out.old index (pack_little_endian T.WIDTH (T.number n))) }
{
    packing::pack_little_endian_into_array(n, out, index).unwrap();
    index + T::WIDTH
}

// Puts the count of an array of numbers and its bytes, as they lie in the store, and gives the index behind them.
fn marshall_elements(count: u64, elements: &[u8], out: &mut [u8], index: usize) -> usize
    requires { index + (8 + length elements.now) ≤ length out.old }
    ensures { (result ≡ index + (8 + length elements.now)) × (out.new ≡ put out.old index (pack_little_endian 8 count ++ elements.now)) }
{
    let at = marshall_uint(count, out, index);
    packing::copy_seq_into_array(elements, out, at).unwrap();
    at + elements.len()
}

// Puts a row's own bytes, without its children's, and gives the index behind them.
#[tactic(auto, unfolding(rows::specs::Size::own_bytes))]
fn marshall_row(rows: &[u64], row: usize, store: &[u8], out: &mut [u8], index: usize) -> usize
    requires { RowHolds rows.now store.now row × (index + own_size_at rows.now row ≤ length out.old) }
    ensures { (result ≡ index + own_size_at rows.now row) × (out.new ≡ put out.old index (own_bytes_at rows.now store.now row)) }
{
    let word2 = tables::word2_at(rows, row);
    let place = tables::word3_at(rows, row) as usize;
    match Kind::of_word(tables::kind_at(rows, row)) {
        Some(Kind::Number(Number::Uint32 | Number::Int32)) => {
            marshall_uint(word2 as u32, out, index)
        }
        Some(Kind::Number(Number::Uint64 | Number::Int64)) => marshall_uint(word2, out, index),
        Some(Kind::Array | Kind::Union) => marshall_uint(word2, out, index),
        Some(Kind::Elements(e)) => {
            let size = (e.width() * word2) as usize;
            marshall_elements(word2, &store[place..place + size], out, index)
        }
        Some(Kind::Constant | Kind::Tuple) | None => index,
    }
}

// Puts the own bytes of all rows, one behind the other: a value's rows are in the order of its bytes.
fn marshall_rows(rows: &[u64], n: usize, store: &[u8], out: &mut [u8], index: usize)
    requires { ((j : ℕ) → j < n → RowHolds rows.now store.now j) × (index + size_from rows.now 0 n ≤ length out.old) }
    ensures { out.new ≡ put out.old index (bytes_from rows.now store.now 0 n) }
{
    let mut at = index;
    for i in 0..n {
        at = marshall_row(rows, i, store, out, at);
    }
}

// GM's `MarshallVal`. What it answers is decided first, so that a refusal leaves every byte as it was.
pub fn marshall_val(
    grammar: &[u32],
    rows: &[u64],
    n: usize,
    store: &[u8],
    out: &mut [u8],
    index: usize,
) -> Result<u64, Refusal>
    ensures { Marshalls (marshall_val_of grammar.now rows.now n store.now (length out.old) index) index result out.old out.new }
{
    let size = sizing::size_to_write(grammar, rows, n, store, out.len(), index)?;
    marshall_rows(rows, n, store, out, index);
    Ok(size)
}

// GM's `Marshall`: `MarshallVal` from byte 0 on.
pub fn marshall(
    grammar: &[u32],
    rows: &[u64],
    n: usize,
    store: &[u8],
    out: &mut [u8],
) -> Result<u64, Refusal>
    ensures { Marshalls (marshall_val_of grammar.now rows.now n store.now (length out.old) 0) 0 result out.old out.new }
{
    marshall_val(grammar, rows, n, store, out, 0)
}
