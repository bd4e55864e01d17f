// The packers of PackedInts (PI): numbers as bytes, least byte first, at an index of a lent output, one by one and in runs; and bytes copied.
#![tactic(auto)]

ghost use Rattle.std.specs.Prelude.{◌≡◌, ◌+◌, ◌^◌, ◌≤◌, ◌<◌, length};
ghost use Rattle.refusal.specs.Outcome.{Fills};
ghost use Rattle.refusal.specs.Meaning.{outcome_of};
ghost use Rattle.packed.specs.Packed.{pack_little_endian, pack_little_endian_seq, put_at};
ghost use Rattle.packed.specs.Steps.{PutSoFar};
ghost use Rattle.std.specs.Prelude.{map as map_list};

use packed::PackedInt;
use refusal::Refusal;

// Puts byte i of n behind the i bytes before it, which stand there: to put them again would leave the output as it is. Byte i is n divided by its
// weight, 0x1_00 to the power i, modulo 0x1_00.
fn put_byte(n: u64, out: &mut [u8], index: usize, i: usize, weight: u64)
    requires { (index + i < length out.old) × (weight ≡ 256 ^ i) × PutSoFar n out.old index i out.old }
    ensures { PutSoFar n out.old index (i + 1) out.new }
{
    out[index + i] = (n / weight % 0x1_00) as u8;
}

// Puts the width bytes of n from the index on, in the order of PackedInts' sum: byte 0 first.
fn pack(n: u64, out: &mut [u8], index: usize, width: usize)
    requires { (1 ≤ width) × (width ≤ 8) × (index + width ≤ length out.old) }
    ensures { PutSoFar n out.old index width out.new }
{
    // Byte 0 stands before the loop, which multiplies first: the weight behind byte 7 would not fit.
    let mut weight: u64 = 1;
    put_byte(n, out, index, 0, weight);
    for i in 1..width {
        weight *= 0x1_00;
        put_byte(n, out, index, i, weight);
    }
}

// The number from the index on, where its bytes have room: else 17.
pub fn pack_little_endian_into_array<T: PackedInt>(
    n: T,
    out: &mut [u8],
    index: usize,
) -> Result<(), Refusal>
    ensures { Fills (put_at out.old index (pack_little_endian T.WIDTH (T.number n))) (outcome_of result) out.old out.new }
{
    packed::room(out.len(), index, 1, T::WIDTH)?;
    pack(n.to_u64(), out, index, T::WIDTH);
    Ok(())
}

// The numbers one behind the other from the index on, where the bytes of all have room: else 17, and none is put.
pub fn pack_little_endian_seq_into_array<T: PackedInt>(
    numbers: &[T],
    out: &mut [u8],
    index: usize,
) -> Result<(), Refusal>
    ensures { Fills (put_at out.old index (pack_little_endian_seq T.WIDTH (map_list T.number numbers.now))) (outcome_of result) out.old out.new }
{
    packed::room(out.len(), index, numbers.len(), T::WIDTH)?;
    for (i, number) in numbers.iter().enumerate() {
        pack(number.to_u64(), out, index + T::WIDTH * i, T::WIDTH);
    }
    Ok(())
}

pub fn pack_little_endian_uint32_into_array(
    n: u32,
    out: &mut [u8],
    index: usize,
) -> Result<(), Refusal>
    ensures { Fills (put_at out.old index (pack_little_endian 4 n)) (outcome_of result) out.old out.new }
{
    pack_little_endian_into_array::<u32>(n, out, index)
}

pub fn pack_little_endian_uint64_into_array(
    n: u64,
    out: &mut [u8],
    index: usize,
) -> Result<(), Refusal>
    ensures { Fills (put_at out.old index (pack_little_endian 8 n)) (outcome_of result) out.old out.new }
{
    pack_little_endian_into_array::<u64>(n, out, index)
}

pub fn pack_little_endian_uint32_seq_into_array(
    numbers: &[u32],
    out: &mut [u8],
    index: usize,
) -> Result<(), Refusal>
    ensures { Fills (put_at out.old index (pack_little_endian_seq 4 numbers.now)) (outcome_of result) out.old out.new }
{
    pack_little_endian_seq_into_array::<u32>(numbers, out, index)
}

pub fn pack_little_endian_uint64_seq_into_array(
    numbers: &[u64],
    out: &mut [u8],
    index: usize,
) -> Result<(), Refusal>
    ensures { Fills (put_at out.old index (pack_little_endian_seq 8 numbers.now)) (outcome_of result) out.old out.new }
{
    pack_little_endian_seq_into_array::<u64>(numbers, out, index)
}

// Puts the bytes of src at the index: GM's `NativeArrays.CopySeqIntoArray`.
pub fn copy_seq_into_array(src: &[u8], out: &mut [u8], index: usize) -> Result<(), Refusal>
    ensures { Fills (put_at out.old index src.now) (outcome_of result) out.old out.new }
{
    packed::room(out.len(), index, src.len(), 1)?;
    for (i, byte) in src.iter().enumerate() {
        out[index + i] = *byte;
    }
    Ok(())
}
