// XDR (RFC 4506): definitions in specs/, laws in proofs/, and as code what export and import share: the padding of an array and its elements.
#![tactic(auto)]

ghost use Rattle.std.specs.Prelude.{◌≡◌, ◌/◌, length};
ghost use Rattle.refusal.specs.Outcome.{Fills};
ghost use Rattle.refusal.specs.Meaning.{outcome_of};
ghost use Rattle.packed.specs.Packed.{put_at};
ghost use Rattle.big_endian.specs.BigEndian.{reverse_each};
ghost use Rattle.value.specs.Kinds.{element_width};
ghost use Rattle.value.specs.Meaning.{elements_named};
ghost use Rattle.xdr.specs.Xdr.{padding as padding_of};

use refusal::Refusal;
use value::Elements;

// The bytes from so many up to a multiple of four.
#[tactic(auto, unfolding(crate::specs::Xdr::padding))]
pub fn padding(size: u64) -> u64
    ensures { result ≡ padding_of size }
{
    (4 - size % 4) % 4
}

// Puts the elements of src at the index in the other byte order: a record's as XDR has them, or back. The bytes of a cut last element
// are left out.
pub fn copy_elements(
    elements: Elements,
    src: &[u8],
    out: &mut [u8],
    index: usize,
) -> Result<(), Refusal>
    ensures { let w = element_width (elements_named elements) in Fills (put_at out.old index (reverse_each w src.now (length src.now / w))) (outcome_of result) out.old out.new }
{
    match elements {
        Elements::Bytes => packing::copy_seq_into_array(src, out, index),
        Elements::Uint32s => big_endian::copy_reversed_seq::<u32>(src, out, index),
        Elements::Uint64s => big_endian::copy_reversed_seq::<u64>(src, out, index),
    }
}
