// Reading: GM's `ParseVal` and `Demarshall`, with rows lent or as a check.
#![tactic(auto)]

ghost use Rattle.std.specs.Prelude.{◌≡◌, true, length};
ghost use Rattle.refusal.specs.Outcome.{map};
ghost use Rattle.admission.specs.Admission.{in_force, check_rows, capacity_of};
ghost use Rattle.readers.specs.Meaning.{step_of, StepKeeps};
ghost use Rattle.readers.specs.Root.{read_root};
ghost use Rattle.reading.specs.Meaning.{parsed_of};
ghost use Rattle.reading.specs.Calls.{parse_val_of, demarshall_of, counts_of, Parses, parsed_step};

use admission::CHECK_ROWS;
use readers::{State, Stopped};
use refusal::Refusal;

// The answer of an accepted reading: the row count and the position behind the value.
#[derive(Clone, Copy, Debug, PartialEq, Eq)]
pub struct Parsed {
    pub rows: usize,
    pub rest_index: usize,
}

// What the readers answered, without the state of a refusal.
fn answer(read: Result<State, Stopped>) -> Result<Parsed, Refusal>
    ensures { parsed_of result ≡ parsed_step read }
{
    let end = read?;
    Ok(Parsed {
        rows: end.begun,
        rest_index: end.at,
    })
}

// GM's `ParseVal` as a check, which answers as `parse_val` does with as many rows as the capacity says; one above 4,096 counts as 4,096.
pub fn check_val_with(
    grammar: &[u32],
    record: &[u8],
    index: usize,
    capacity: usize,
) -> Result<Parsed, Refusal>
    ensures { parsed_of result ≡ map counts_of (parse_val_of grammar.now «record».now index (in_force capacity)) }
{
    answer(readers::read(grammar, record, index, capacity, false, &mut []))
}

// A try: GM's `Demarshall` as a check, with the values begun where it ends, also where it is refused. A capacity above 4,096 counts as 4,096.
pub fn try_whole(grammar: &[u32], record: &[u8], capacity: usize) -> Result<State, Stopped>
    ensures { (step_of result ≡ map (λ t. t.state) (read_root grammar.now «record».now 0 (in_force capacity) true)) × StepKeeps (in_force capacity) result }
{
    readers::read(grammar, record, 0, capacity, true, &mut [])
}

// GM's `Demarshall` as a check, which answers as `demarshall` does with as many rows as the capacity says; one above 4,096 counts as 4,096.
pub fn check_whole_with(grammar: &[u32], record: &[u8], capacity: usize) -> Result<Parsed, Refusal>
    ensures { parsed_of result ≡ map counts_of (demarshall_of grammar.now «record».now (in_force capacity)) }
{
    answer(try_whole(grammar, record, capacity))
}

// GM's `ParseVal` as a check for which no capacity is named: it has 1,024 rows.
pub fn check_val(grammar: &[u32], record: &[u8], index: usize) -> Result<Parsed, Refusal>
    ensures { parsed_of result ≡ map counts_of (parse_val_of grammar.now «record».now index check_rows) }
{
    check_val_with(grammar, record, index, CHECK_ROWS)
}

// GM's `Demarshall` as a check for which no capacity is named: it has 1,024 rows.
pub fn check_whole(grammar: &[u32], record: &[u8]) -> Result<Parsed, Refusal>
    ensures { parsed_of result ≡ map counts_of (demarshall_of grammar.now «record».now check_rows) }
{
    check_whole_with(grammar, record, CHECK_ROWS)
}

// GM's `ParseVal`.
pub fn parse_val(
    grammar: &[u32],
    record: &[u8],
    index: usize,
    rows: &mut [u64],
) -> Result<Parsed, Refusal>
    ensures { Parses (parse_val_of grammar.now «record».now index (capacity_of (length rows.old))) index result rows.old rows.new }
{
    let capacity = admission::capacity_of(rows.len());
    answer(readers::read(grammar, record, index, capacity, false, rows))
}

// GM's `Demarshall`: the whole reading.
pub fn demarshall(grammar: &[u32], record: &[u8], rows: &mut [u64]) -> Result<Parsed, Refusal>
    ensures { Parses (demarshall_of grammar.now «record».now (capacity_of (length rows.old))) 0 result rows.old rows.new }
{
    let capacity = admission::capacity_of(rows.len());
    answer(readers::read(grammar, record, 0, capacity, true, rows))
}
