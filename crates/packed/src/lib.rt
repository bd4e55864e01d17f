// The unpackers of PackedInts (PI): numbers out of bytes, least byte first, at an index of a lent slice, one by one and in runs. And what
// its packers ask first: whether there is room.
#![tactic(auto)]

ghost use Rattle.std.specs.Prelude.{ℕ, ◌≡◌, ◌+◌, ◌*◌, ◌%◌, ◌^◌, ◌≤◌, ◌<◌, length, reverse, leb};
ghost use Rattle.refusal.specs.Outcome.{Fills, map};
ghost use Rattle.refusal.specs.Meaning.{outcome_of};
ghost use Rattle.packed.specs.Packed.{present as present_of, room as room_of, unpack_little_endian, pack_little_endian, unpack_at, unpack_seq_at};
ghost use Rattle.packed.specs.Steps.{Summed};
ghost use Rattle.std.proofs.Common.{rules};
ghost use Rattle.std.specs.Prelude.{map as map_list};

use refusal::Refusal;

// The numbers that PackedInts packs: u32 in 4 bytes, u64 in 8.
pub trait PackedInt: Copy {
    ghost WIDTH: { ℕ };

    ghost number: { Self → ℕ };

    // The bytes of a number.
    const WIDTH: usize;

    // The number in the lowest bytes of n.
    fn from_u64(n: u64) -> Self
        ensures { number result ≡ n % 256 ^ WIDTH };

    fn to_u64(self) -> u64
        ensures { result ≡ number self };

    // The number with its bytes turned round.
    fn swap_bytes(self) -> Self
        ensures { number result ≡ unpack_little_endian WIDTH (reverse (pack_little_endian WIDTH (number self))) };

    ghost width_within: { (1 ≤ WIDTH) × (WIDTH ≤ 8) };
}

impl PackedInt for u32 {
    ghost WIDTH = { 4 };

    ghost number = { λ n. n };

    const WIDTH: usize = 4;

    fn from_u64(n: u64) -> u32 {
        (n % 0x1_0000_0000) as u32
    }

    fn to_u64(self) -> u64 {
        u64::from(self)
    }

    fn swap_bytes(self) -> u32 {
        u32::swap_bytes(self)
    }

    ghost width_within = { Prim.search rules };
}

impl PackedInt for u64 {
    ghost WIDTH = { 8 };

    ghost number = { λ n. n };

    const WIDTH: usize = 8;

    fn from_u64(n: u64) -> u64 {
        n
    }

    fn to_u64(self) -> u64 {
        self
    }

    fn swap_bytes(self) -> u64 {
        u64::swap_bytes(self)
    }

    ghost width_within = { Prim.search rules };
}

// Whether count numbers of width bytes from the index on end within len bytes. The count is compared and never multiplied.
// Numbers of no bytes end where they start.
#[tactic(auto, using(crate::proofs::Calls::count_compared))]
pub fn within(len: usize, index: usize, count: usize, width: usize) -> bool
    ensures { result ≡ leb (index + width * count) len }
{
    index <= len && (width == 0 || count <= (len - index) / width)
}

#[tactic(auto, unfolding(crate::specs::Packed::present))]
fn present(len: usize, index: usize, count: usize, width: usize) -> Result<(), Refusal>
    ensures { outcome_of result ≡ present_of len index (width * count) }
{
    if len < index {
        return Err(refusal::at_byte(refusal::INDEX_PAST_END, index));
    }
    refusal::accept_if(
        within(len, index, count, width),
        refusal::at_byte(refusal::BYTES_MISSING, index),
    )
}

// Whether count numbers of width bytes have room from the index on. Every writer takes refusal 17 from here.
#[tactic(auto, unfolding(crate::specs::Packed::room))]
pub fn room(len: usize, index: usize, count: usize, width: usize) -> Result<(), Refusal>
    ensures { outcome_of result ≡ room_of len index (width * count) }
{
    refusal::accept_if(
        within(len, index, count, width),
        refusal::at_byte(refusal::OUTPUT_TOO_SHORT, len),
    )
}

// Adds PackedInts' next summand, byte i times its weight, 0x1_00 to the power i, to the sum of the i bytes before it.
fn add_byte(sum: u64, packed: &[u8], index: usize, i: usize, weight: u64) -> u64
    requires { (i < 8) × (index + i < length packed.now) × (weight ≡ 256 ^ i) × Summed packed.now index i sum }
    ensures { Summed packed.now index (i + 1) result }
{
    sum + u64::from(packed[index + i]) * weight
}

// The number in the width bytes from the index on, in the order of PackedInts' sum: byte 0, then byte 1 times 0x1_00, and so on.
fn unpack(packed: &[u8], index: usize, width: usize) -> u64
    requires { (1 ≤ width) × (width ≤ 8) × (index + width ≤ length packed.now) }
    ensures { Summed packed.now index width result }
{
    // Byte 0 stands before the loop, which multiplies first: the weight behind byte 7 would not fit.
    let mut weight: u64 = 1;
    let mut sum = add_byte(0, packed, index, 0, weight);
    for i in 1..width {
        weight *= 0x1_00;
        sum = add_byte(sum, packed, index, i, weight);
    }
    sum
}

// The number at the index: 7, then 9.
pub fn unpack_little_endian<T: PackedInt>(packed: &[u8], index: usize) -> Result<T, Refusal>
    ensures { map T.number (outcome_of result) ≡ unpack_at T.WIDTH packed.now index }
{
    present(packed.len(), index, 1, T::WIDTH)?;
    Ok(T::from_u64(unpack(packed, index, T::WIDTH)))
}

// So many numbers as the slice holds, one behind the other from the index on: 7, then 9.
pub fn unpack_little_endian_seq<T: PackedInt>(
    packed: &[u8],
    index: usize,
    numbers: &mut [T],
) -> Result<(), Refusal>
    ensures { Fills (unpack_seq_at T.WIDTH packed.now index (length numbers.old)) (outcome_of result) (map_list T.number numbers.old) (map_list T.number numbers.new) }
{
    present(packed.len(), index, numbers.len(), T::WIDTH)?;
    for (i, number) in numbers.iter_mut().enumerate() {
        *number = T::from_u64(unpack(packed, index + T::WIDTH * i, T::WIDTH));
    }
    Ok(())
}

pub fn unpack_little_endian_uint32(packed: &[u8], index: usize) -> Result<u32, Refusal>
    ensures { outcome_of result ≡ unpack_at 4 packed.now index }
{
    unpack_little_endian::<u32>(packed, index)
}

pub fn unpack_little_endian_uint64(packed: &[u8], index: usize) -> Result<u64, Refusal>
    ensures { outcome_of result ≡ unpack_at 8 packed.now index }
{
    unpack_little_endian::<u64>(packed, index)
}

pub fn unpack_little_endian_uint32_seq(
    packed: &[u8],
    index: usize,
    numbers: &mut [u32],
) -> Result<(), Refusal>
    ensures { Fills (unpack_seq_at 4 packed.now index (length numbers.old)) (outcome_of result) numbers.old numbers.new }
{
    unpack_little_endian_seq::<u32>(packed, index, numbers)
}

pub fn unpack_little_endian_uint64_seq(
    packed: &[u8],
    index: usize,
    numbers: &mut [u64],
) -> Result<(), Refusal>
    ensures { Fills (unpack_seq_at 8 packed.now index (length numbers.old)) (outcome_of result) numbers.old numbers.new }
{
    unpack_little_endian_seq::<u64>(packed, index, numbers)
}
