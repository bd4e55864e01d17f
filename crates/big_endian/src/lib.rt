// Numbers most byte first, as RFC 4506 has them: one by one at an index of a lent slice, and runs copied from one byte order to the other.
#![tactic(auto)]

ghost use Rattle.std.specs.Prelude.{◌≡◌, ◌/◌, length};
ghost use Rattle.refusal.specs.Outcome.{Fills, map};
ghost use Rattle.refusal.specs.Meaning.{outcome_of};
ghost use Rattle.packed.specs.Packed.{put_at};
ghost use Rattle.big_endian.specs.BigEndian.{pack_big_endian, unpack_big_endian_at, reverse_each};

use packed::PackedInt;
use refusal::Refusal;

// The number at the index: 7, then 9.
pub fn unpack_big_endian<T: PackedInt>(packed: &[u8], index: usize) -> Result<T, Refusal>
    ensures { map T.number (outcome_of result) ≡ unpack_big_endian_at T.WIDTH packed.now index }
{
    let number: T = packed::unpack_little_endian(packed, index)?;
    Ok(number.swap_bytes())
}

// The number from the index on, where its bytes have room: else 17.
pub fn pack_big_endian_into_array<T: PackedInt>(
    n: T,
    out: &mut [u8],
    index: usize,
) -> Result<(), Refusal>
    ensures { Fills (put_at out.old index (pack_big_endian T.WIDTH (T.number n))) (outcome_of result) out.old out.new }
{
    packing::pack_little_endian_into_array(n.swap_bytes(), out, index)
}

// Puts the numbers of src at the index in the other byte order. The bytes of a cut last number are left out.
// All bytes of a number are read before the first is put: the compiler can't know that src and out are apart. Each number has a slice of its
// own, of a length that is known where T is, so that the loop tests no room and compiles to loads, swaps and stores.
pub fn copy_reversed_seq<T: PackedInt>(
    src: &[u8],
    out: &mut [u8],
    index: usize,
) -> Result<(), Refusal>
    ensures { Fills (put_at out.old index (reverse_each T.WIDTH src.now (length src.now / T.WIDTH))) (outcome_of result) out.old out.new }
{
    let width = T::WIDTH;
    let count = src.len() / width;
    packed::room(out.len(), index, count, width)?;
    for i in 0..count {
        let at = width * i;
        let number: T = unpack_big_endian(&src[at..at + width], 0).unwrap();
        let place = &mut out[index + at..index + at + width];
        packing::pack_little_endian_into_array(number, place, 0).unwrap();
    }
    Ok(())
}
