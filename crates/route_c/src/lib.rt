// The C interface: each call of the library under a C name.
#![tactic(auto, using(answer_c::proofs::Answer::answering))]

ghost use Rattle.std.specs.Prelude.{◌≡◌, length};
ghost use Rattle.refusal.specs.Outcome.{map};
ghost use Rattle.packed.specs.Packed.{unpack_at, unpack_seq_at, put_at, pack_little_endian, pack_little_endian_seq};
ghost use Rattle.grammar.specs.Check.{check_grammar};
ghost use Rattle.rows.specs.Size.{compute_size_of};
ghost use Rattle.rows.specs.Locate.{locate_array};
ghost use Rattle.signed.specs.Signed.{signed_number_of};
ghost use Rattle.admission.specs.Admission.{in_force, check_rows, capacity_of};
ghost use Rattle.reading.specs.Calls.{parse_val_of, demarshall_of, counts_of};
ghost use Rattle.sizing.specs.Writes.{marshall_val_of};
ghost use Rattle.previewing.specs.Preview.{preview_of};
ghost use Rattle.choosing.specs.Choose.{choose_of};
ghost use Rattle.accepting.specs.Accepts.{accepts_of};
ghost use Rattle.exporting.specs.Export.{export_of};
ghost use Rattle.importing.specs.Calls.{import_of};
ghost use Rattle.answer_c.specs.Answer.{answer_of, no_value, one_value, signed_value, part_values, count_values, preview_values, choice_values, verdict_values, Answers, AnswersRows, AnswersBytes, AnswersXdr, AnswersImport, AnswersSame};

use answer_c::{RouteAnswer, of_result, of_same_route};

#[unsafe(no_mangle)]
pub extern "C" fn route_unpack_u32(packed: &[u8], index: usize) -> RouteAnswer
    ensures { result ≡ answer_of (map one_value (unpack_at 4 packed.now index)) }
{
    of_result(packed::unpack_little_endian_uint32(packed, index))
}

#[unsafe(no_mangle)]
pub extern "C" fn route_unpack_u64(packed: &[u8], index: usize) -> RouteAnswer
    ensures { result ≡ answer_of (map one_value (unpack_at 8 packed.now index)) }
{
    of_result(packed::unpack_little_endian_uint64(packed, index))
}

#[unsafe(no_mangle)]
pub extern "C" fn route_pack_u32(n: u32, out: &mut [u8], index: usize) -> RouteAnswer
    ensures { Answers (put_at out.old index (pack_little_endian 4 n)) result out.old out.new }
{
    of_result(packing::pack_little_endian_uint32_into_array(n, out, index))
}

#[unsafe(no_mangle)]
pub extern "C" fn route_pack_u64(n: u64, out: &mut [u8], index: usize) -> RouteAnswer
    ensures { Answers (put_at out.old index (pack_little_endian 8 n)) result out.old out.new }
{
    of_result(packing::pack_little_endian_uint64_into_array(n, out, index))
}

#[unsafe(no_mangle)]
pub extern "C" fn route_unpack_u32_seq(
    packed: &[u8],
    index: usize,
    numbers: &mut [u32],
) -> RouteAnswer
    ensures { Answers (unpack_seq_at 4 packed.now index (length numbers.old)) result numbers.old numbers.new }
{
    of_result(packed::unpack_little_endian_uint32_seq(packed, index, numbers))
}

#[unsafe(no_mangle)]
pub extern "C" fn route_unpack_u64_seq(
    packed: &[u8],
    index: usize,
    numbers: &mut [u64],
) -> RouteAnswer
    ensures { Answers (unpack_seq_at 8 packed.now index (length numbers.old)) result numbers.old numbers.new }
{
    of_result(packed::unpack_little_endian_uint64_seq(packed, index, numbers))
}

#[unsafe(no_mangle)]
pub extern "C" fn route_pack_u32_seq(numbers: &[u32], out: &mut [u8], index: usize) -> RouteAnswer
    ensures { Answers (put_at out.old index (pack_little_endian_seq 4 numbers.now)) result out.old out.new }
{
    of_result(packing::pack_little_endian_uint32_seq_into_array(numbers, out, index))
}

#[unsafe(no_mangle)]
pub extern "C" fn route_pack_u64_seq(numbers: &[u64], out: &mut [u8], index: usize) -> RouteAnswer
    ensures { Answers (put_at out.old index (pack_little_endian_seq 8 numbers.now)) result out.old out.new }
{
    of_result(packing::pack_little_endian_uint64_seq_into_array(numbers, out, index))
}

#[unsafe(no_mangle)]
pub extern "C" fn route_check_grammar(words: &[u32]) -> RouteAnswer
    ensures { result ≡ answer_of (map no_value (check_grammar words.now)) }
{
    of_result(grammar::check_grammar(words))
}

#[unsafe(no_mangle)]
pub extern "C" fn route_compute_size_of(rows: &[u64], n: usize, store: &[u8]) -> RouteAnswer
    ensures { result ≡ answer_of (map one_value (compute_size_of rows.now n store.now)) }
{
    of_result(rows::compute_size_of(rows, n, store))
}

#[unsafe(no_mangle)]
pub extern "C" fn route_locate_array(
    rows: &[u64],
    n: usize,
    store: &[u8],
    row: usize,
) -> RouteAnswer
    ensures { result ≡ answer_of (map part_values (locate_array rows.now n store.now row)) }
{
    of_result(rows::locate_array(rows, n, store, row))
}

#[unsafe(no_mangle)]
pub extern "C" fn route_signed_number(
    rows: &[u64],
    n: usize,
    store: &[u8],
    row: usize,
) -> RouteAnswer
    ensures { result ≡ answer_of (map signed_value (signed_number_of rows.now n store.now row)) }
{
    of_result(signed::signed_number(rows, n, store, row))
}

#[unsafe(no_mangle)]
pub extern "C" fn route_check_val(grammar: &[u32], record: &[u8], index: usize) -> RouteAnswer
    ensures { result ≡ answer_of (map count_values (map counts_of (parse_val_of grammar.now «record».now index check_rows))) }
{
    of_result(reading::check_val(grammar, record, index))
}

#[unsafe(no_mangle)]
pub extern "C" fn route_check_whole(grammar: &[u32], record: &[u8]) -> RouteAnswer
    ensures { result ≡ answer_of (map count_values (map counts_of (demarshall_of grammar.now «record».now check_rows))) }
{
    of_result(reading::check_whole(grammar, record))
}

#[unsafe(no_mangle)]
pub extern "C" fn route_check_val_with(
    grammar: &[u32],
    record: &[u8],
    index: usize,
    capacity: usize,
) -> RouteAnswer
    ensures { result ≡ answer_of (map count_values (map counts_of (parse_val_of grammar.now «record».now index (in_force capacity)))) }
{
    of_result(reading::check_val_with(grammar, record, index, capacity))
}

#[unsafe(no_mangle)]
pub extern "C" fn route_check_whole_with(
    grammar: &[u32],
    record: &[u8],
    capacity: usize,
) -> RouteAnswer
    ensures { result ≡ answer_of (map count_values (map counts_of (demarshall_of grammar.now «record».now (in_force capacity)))) }
{
    of_result(reading::check_whole_with(grammar, record, capacity))
}

#[unsafe(no_mangle)]
pub extern "C" fn route_parse_val(
    grammar: &[u32],
    record: &[u8],
    index: usize,
    rows: &mut [u64],
) -> RouteAnswer
    ensures { AnswersRows (parse_val_of grammar.now «record».now index (capacity_of (length rows.old))) index result rows.old rows.new }
{
    of_result(reading::parse_val(grammar, record, index, rows))
}

#[unsafe(no_mangle)]
pub extern "C" fn route_demarshall(grammar: &[u32], record: &[u8], rows: &mut [u64]) -> RouteAnswer
    ensures { AnswersRows (demarshall_of grammar.now «record».now (capacity_of (length rows.old))) 0 result rows.old rows.new }
{
    of_result(reading::demarshall(grammar, record, rows))
}

#[unsafe(no_mangle)]
pub extern "C" fn route_marshall_val(
    grammar: &[u32],
    rows: &[u64],
    n: usize,
    store: &[u8],
    out: &mut [u8],
    index: usize,
) -> RouteAnswer
    ensures { AnswersBytes (marshall_val_of grammar.now rows.now n store.now (length out.old) index) index result out.old out.new }
{
    of_result(writing::marshall_val(grammar, rows, n, store, out, index))
}

#[unsafe(no_mangle)]
pub extern "C" fn route_marshall(
    grammar: &[u32],
    rows: &[u64],
    n: usize,
    store: &[u8],
    out: &mut [u8],
) -> RouteAnswer
    ensures { AnswersBytes (marshall_val_of grammar.now rows.now n store.now (length out.old) 0) 0 result out.old out.new }
{
    of_result(writing::marshall(grammar, rows, n, store, out))
}

#[unsafe(no_mangle)]
pub extern "C" fn route_preview(
    grammar: &[u32],
    rows: &[u64],
    n: usize,
    store: &[u8],
    out: &[u8],
    index: usize,
) -> RouteAnswer
    ensures { result ≡ answer_of (map preview_values (preview_of grammar.now rows.now n store.now out.now index)) }
{
    of_result(previewing::preview(grammar, rows, n, store, out, index))
}

#[unsafe(no_mangle)]
pub extern "C" fn route_same_route(grammar: &[u32], first: &[u8], second: &[u8]) -> RouteAnswer
    ensures { AnswersSame grammar.now first.now second.now result }
{
    of_same_route(comparing::same_route(grammar, first, second))
}

#[unsafe(no_mangle)]
pub extern "C" fn route_choose_grammar(list: &[u32], record: &[u8]) -> RouteAnswer
    ensures { result ≡ answer_of (map choice_values (choose_of list.now «record».now)) }
{
    of_result(choosing::choose_grammar(list, record))
}

#[unsafe(no_mangle)]
pub extern "C" fn route_accepts(grammar: &[u32], record: &[u8]) -> RouteAnswer
    ensures { result ≡ answer_of (map verdict_values (accepts_of grammar.now «record».now)) }
{
    of_result(accepting::accepts(grammar, record))
}

#[unsafe(no_mangle)]
pub extern "C" fn route_export_xdr(
    grammar: &[u32],
    rows: &[u64],
    n: usize,
    store: &[u8],
    out: &mut [u8],
    index: usize,
) -> RouteAnswer
    ensures { AnswersXdr (export_of grammar.now rows.now n store.now (length out.old) index) index result out.old out.new }
{
    of_result(exporting::export_xdr(grammar, rows, n, store, out, index))
}

#[unsafe(no_mangle)]
pub extern "C" fn route_import_xdr(
    grammar: &[u32],
    record: &[u8],
    rows: &mut [u64],
    store: &mut [u8],
) -> RouteAnswer
    ensures { AnswersImport (import_of grammar.now «record».now (capacity_of (length rows.old)) (length store.old)) result rows.old store.old rows.new store.new }
{
    of_result(importing::import_xdr(grammar, record, rows, store))
}
