// The value, array-contents and tuple-contents readers, and two calls over them that take any input.
#![tactic(auto)]

ghost use Rattle.std.specs.Prelude.{◌≡◌, ◌∷◌, [], ℕ, ◌+◌, ◌-◌, ◌*◌, ◌/◌, ◌≤◌, ◌<◌, min, length, get_or, leb};
ghost use Rattle.refusal.specs.Meaning.{outcome_of};
ghost use Rattle.refusal.specs.Outcome.{accepted, test, reason, byte, word as word_at, map};
ghost use Rattle.value.specs.Kinds.{width as number_width, element_width, array, tuple, union};
ghost use Rattle.value.specs.Meaning.{number_named, elements_named, kind_word};
ghost use Rattle.value.specs.Tree.{VNumber, VNumberArray};
ghost use Rattle.value.specs.Reading.{claim as claim_of, take_number, take_numbers, move, start, read_body, read_val, read_fields};
ghost use Rattle.value.specs.Step.{give, elements};
ghost use Rattle.tables.specs.Grammar.{node_count, first_word, count_word, child_word};
ghost use Rattle.grammar.specs.Tree.{tree_of, child_trees};
ghost use Rattle.tables.specs.Row.{row_width, laid};
ghost use Rattle.rows.specs.Layout.{rows_of, rows_of_all};
ghost use Rattle.admission.specs.Admission.{in_force};
ghost use Rattle.readers.specs.Meaning.{state_of, stop_of, step_of, taken_of, StepKeeps, TakenKeeps};
ghost use Rattle.readers.specs.Reads.{Ready, Node, RowClaimed, Reads, closed, Counted, take_below};
ghost use Rattle.readers.specs.Root.{capacity_within, ended, read_root, Admitted, FillsRows, first_field_of, ReadsFirstField};

use packed::PackedInt;
use refusal::Refusal;
use tables::Row;
use value::{Elements, Kind, Number};

// Document 01's position and rows used, under a capacity. `begun` counts each time a row is asked for, the refused time too.
#[derive(Clone, Copy, Debug, PartialEq, Eq)]
pub struct State {
    pub at: usize,
    pub begun: usize,
    pub capacity: usize,
}

// A refusal, with the state where the reading ended.
#[derive(Clone, Copy, Debug, PartialEq, Eq)]
pub struct Stopped {
    pub state: State,
    pub refusal: Refusal,
}

impl From<Stopped> for Refusal {
    ghost from_gives = { λ e r. r ≡ e.refusal };

    fn from(e: Stopped) -> Refusal {
        e.refusal
    }
}

impl State {
    // The reading ends here.
    fn stop(self, refusal: Refusal) -> Stopped
        ensures { result ≡ record { state = self; refusal = refusal } }
    {
        Stopped {
            state: self,
            refusal: refusal,
        }
    }

    // A row for the value that starts here.
    fn claim(self) -> Result<State, Stopped>
        requires { self.begun ≤ 4096 }
        ensures { (step_of result ≡ claim_of self.capacity (state_of self)) × StepKeeps self.capacity result }
    {
        let next = State {
            begun: self.begun + 1,
            ..self
        };
        if self.begun < self.capacity {
            Ok(next)
        } else {
            Err(next.stop(refusal::at_byte(refusal::ROWS_EXHAUSTED, self.at)))
        }
    }

    // n bytes on.
    fn move_on(self, n: usize) -> State
        requires { self.at + n ≤ 1048576 }
        ensures { (state_of result ≡ move n (state_of self)) × (result.capacity ≡ self.capacity) }
    {
        State {
            at: self.at + n,
            ..self
        }
    }

    // The next bytes as a number; 9 where they are missing.
    fn take<T: PackedInt>(self, bytes: &[u8]) -> Result<(u64, State), Stopped>
        requires { (self.at ≤ length bytes.now) × (length bytes.now ≤ 1048576) }
        ensures { (taken_of result ≡ take_number bytes.now T.WIDTH (state_of self)) × TakenKeeps self.capacity result }
    {
        match packed::unpack_little_endian::<T>(bytes, self.at) {
            Ok(n) => Ok((n.to_u64(), self.move_on(T::WIDTH))),
            Err(r) => Err(self.stop(r)),
        }
    }

    // The next bytes as a number of a kind.
    fn take_number(self, bytes: &[u8], number: Number) -> Result<(u64, State), Stopped>
        requires { (self.at ≤ length bytes.now) × (length bytes.now ≤ 1048576) }
        ensures { (taken_of result ≡ take_number bytes.now (number_width (number_named number)) (state_of self)) × TakenKeeps self.capacity result }
    {
        match number {
            Number::Uint32 => self.take::<u32>(bytes),
            Number::Uint64 => self.take::<u64>(bytes),
            Number::Int32 => self.take::<u32>(bytes),
            Number::Int64 => self.take::<u64>(bytes),
        }
    }

    // An 8-byte number below a limit; from the limit on it is refused by its number, where the value starts.
    fn take_below(self, bytes: &[u8], limit: u64, number: u64) -> Result<(u64, State), Stopped>
        requires { (self.at ≤ length bytes.now) × (length bytes.now ≤ 1048576) }
        ensures { (taken_of result ≡ take_below bytes.now limit number (state_of self)) × TakenKeeps self.capacity result }
    {
        let (n, next) = self.take::<u64>(bytes)?;
        if n < limit {
            Ok((n, next))
        } else {
            Err(self.stop(refusal::at_byte(number, self.at)))
        }
    }
}

// A word of a table that passes: without the test of `tables::word`, which the readers would make at each field.
fn word(words: &[u32], at: usize) -> usize
    requires { at < length words.now }
    ensures { (result ≡ get_or words.now at 0) × (result < 4294967296) }
{
    words[at] as usize
}

// Child i of a node.
fn child_at(grammar: &[u32], node: usize, i: usize) -> usize
    requires { Node grammar.now node × (i < count_word grammar.now node) }
    ensures { (result ≡ child_word grammar.now (first_word grammar.now node + i)) × (result < node_count grammar.now) }
{
    let nodes = word(grammar, 0);
    let first = word(grammar, 2 + 3 * node);
    word(grammar, 2 + 3 * nodes + (first + i))
}

// The row of a parent that starts at byte start: its span and its size are known once its children are read.
fn close_row(
    rows: &mut [u64],
    row: usize,
    start: usize,
    kind: Kind,
    word2: u64,
    children: Result<State, Stopped>,
) -> Result<State, Stopped>
    requires { Counted row start children }
    ensures { (result ≡ children) × (rows.new ≡ closed row start (kind_word kind) word2 children rows.old) }
{
    let next = children?;
    let closed = Row {
        kind: kind.word(),
        span: (next.begun - row) as u64,
        word2: word2,
        word3: 0,
        size: (next.at - start) as u64,
    };
    tables::put_row(rows, row, closed);
    Ok(next)
}

fn read_constant(rows: &mut [u64], row: usize, s: State) -> State
    ensures { (result ≡ s) × (rows.new ≡ laid rows.old row (0 ∷ 1 ∷ 0 ∷ 0 ∷ 0 ∷ [])) }
{
    let constant = Row {
        kind: Kind::Constant.word(),
        span: 1,
        word2: 0,
        word3: 0,
        size: 0,
    };
    tables::put_row(rows, row, constant);
    s
}

// Kinds 1, 2, 9 and 10.
fn read_number(
    bytes: &[u8],
    rows: &mut [u64],
    row: usize,
    number: Number,
    s: State,
) -> Result<State, Stopped>
    requires { (s.at ≤ length bytes.now) × (length bytes.now ≤ 1048576) }
    ensures { Reads rows_of (give (VNumber (number_named number)) (take_number bytes.now (number_width (number_named number)) (state_of s))) s.capacity row s.at rows.old result rows.new }
{
    let (n, next) = s.take_number(bytes, number)?;
    let taken = Row {
        kind: Kind::Number(number).word(),
        span: 1,
        word2: n,
        word3: 0,
        size: number.width(),
    };
    tables::put_row(rows, row, taken);
    Ok(next)
}

// The bytes that count elements of a width take in the part handed on, which starts right behind the count of the
// value that starts at start. The count is compared and never multiplied first.
fn read_array_body(part: &[u8], count: u64, width: u64, start: usize) -> Result<usize, Refusal>
    requires { (0 < width) × (width ≤ 8) }
    ensures { outcome_of result ≡ test (leb count (length part.now / width)) (reason 9 (byte start)) (λ _. accepted (width * count)) }
{
    let left = part.len() as u64;
    if left / width < count {
        return Err(refusal::at_byte(refusal::BYTES_MISSING, start));
    }
    Ok((width * count) as usize)
}

// The count, then the elements, of a kind that is known where this is called, so that the compiler knows the width.
#[inline(always)]
fn read_elements_of(
    bytes: &[u8],
    rows: &mut [u64],
    row: usize,
    elements: Elements,
    s: State,
) -> Result<State, Stopped>
    requires { (s.at ≤ length bytes.now) × (length bytes.now ≤ 1048576) }
    ensures { Reads rows_of (give (VNumberArray (elements_named elements)) (take_numbers bytes.now (element_width (elements_named elements)) (state_of s))) s.capacity row s.at rows.old result rows.new }
{
    let (count, next) = s.take::<u64>(bytes)?;
    let place = next.at;
    match read_array_body(&bytes[place..], count, elements.width(), s.at) {
        Err(r) => Err(s.stop(r)),
        Ok(n) => {
            let taken = Row {
                kind: Kind::Elements(elements).word(),
                span: 1,
                word2: count,
                word3: place as u64,
                size: (8 + n) as u64,
            };
            tables::put_row(rows, row, taken);
            Ok(next.move_on(n))
        }
    }
}

// Kinds 5 to 7: the count, then the elements.
fn read_elements(
    bytes: &[u8],
    rows: &mut [u64],
    row: usize,
    elements: Elements,
    s: State,
) -> Result<State, Stopped>
    requires { (s.at ≤ length bytes.now) × (length bytes.now ≤ 1048576) }
    ensures { Reads rows_of (give (VNumberArray (elements_named elements)) (take_numbers bytes.now (element_width (elements_named elements)) (state_of s))) s.capacity row s.at rows.old result rows.new }
{
    match elements {
        Elements::Bytes => read_elements_of(bytes, rows, row, Elements::Bytes, s),
        Elements::Uint32s => read_elements_of(bytes, rows, row, Elements::Uint32s, s),
        Elements::Uint64s => read_elements_of(bytes, rows, row, Elements::Uint64s, s),
    }
}

// Refusal 3, at a node's kind word.
fn refuse_kind(node: usize, s: State) -> Stopped
    requires { node < 256 }
    ensures { stop_of result ≡ record { why = reason 3 (word_at (1 + 3 * node)); state = state_of s } }
{
    s.stop(refusal::at_word(refusal::NODE_KIND, 1 + 3 * node))
}

// The value that starts at s and stands for a node. In a table that passes each kind word names a kind. Arrays, tuples and cases are
// functions by themselves, which share one frame: all of the cycle but this one are put into it as compiled (docs/DECISIONS.md, 27).
#[cycle(value_readers)]
fn read_value(
    grammar: &[u32],
    node: usize,
    bytes: &[u8],
    rows: &mut [u64],
    s: State,
) -> Result<State, Stopped>
    requires { Node grammar.now node × Ready bytes.now rows.old s }
    ensures { Reads rows_of (read_val s.capacity bytes.now (tree_of grammar.now node) (state_of s)) s.capacity s.begun s.at rows.old result rows.new }
{
    let row = s.begun;
    let t = s.claim()?;
    match Kind::of_word(grammar[1 + 3 * node] as u64) {
        Some(Kind::Constant) => Ok(read_constant(rows, row, t)),
        Some(Kind::Number(number)) => read_number(bytes, rows, row, number, t),
        Some(Kind::Array) => read_array(grammar, node, bytes, rows, row, t),
        Some(Kind::Tuple) => read_tuple(grammar, node, bytes, rows, row, t),
        Some(Kind::Elements(elements)) => read_elements(bytes, rows, row, elements, t),
        Some(Kind::Union) => read_case(grammar, node, bytes, rows, row, t),
        None => Err(refuse_kind(node, t)),
    }
}

// Kind 3: the count, at most the rows left, then the elements.
#[cycle(value_readers)]
#[inline(always)]
fn read_array(
    grammar: &[u32],
    node: usize,
    bytes: &[u8],
    rows: &mut [u64],
    row: usize,
    s: State,
) -> Result<State, Stopped>
    requires { RowClaimed grammar.now bytes.now rows.old node array row s }
    ensures { Reads rows_of (read_body s.capacity bytes.now (tree_of grammar.now node) (state_of s)) s.capacity row s.at rows.old result rows.new }
{
    let limit = (s.capacity - s.begun + 1) as u64;
    let (count, t) = s.take_below(bytes, limit, refusal::ROWS_EXHAUSTED)?;
    let read = read_array_contents(grammar, node, bytes, rows, count, t);
    close_row(rows, row, s.at, Kind::Array, count, read)
}

// Kind 4: the fields.
#[cycle(value_readers)]
#[inline(always)]
fn read_tuple(
    grammar: &[u32],
    node: usize,
    bytes: &[u8],
    rows: &mut [u64],
    row: usize,
    s: State,
) -> Result<State, Stopped>
    requires { RowClaimed grammar.now bytes.now rows.old node tuple row s }
    ensures { Reads rows_of (read_body s.capacity bytes.now (tree_of grammar.now node) (state_of s)) s.capacity row s.at rows.old result rows.new }
{
    let read = read_tuple_contents(grammar, node, bytes, rows, s);
    let count = word(grammar, 3 + 3 * node);
    close_row(rows, row, s.at, Kind::Tuple, count as u64, read)
}

// Kind 8: the tag, then the value of its case.
#[cycle(value_readers)]
#[inline(always)]
fn read_case(
    grammar: &[u32],
    node: usize,
    bytes: &[u8],
    rows: &mut [u64],
    row: usize,
    s: State,
) -> Result<State, Stopped>
    requires { RowClaimed grammar.now bytes.now rows.old node union row s }
    ensures { Reads rows_of (read_body s.capacity bytes.now (tree_of grammar.now node) (state_of s)) s.capacity row s.at rows.old result rows.new }
{
    let limit = word(grammar, 3 + 3 * node) as u64;
    let (tag, t) = s.take_below(bytes, limit, refusal::TAG_UNKNOWN)?;
    let child = child_at(grammar, node, tag as usize);
    let read = read_value(grammar, child, bytes, rows, t);
    close_row(rows, row, s.at, Kind::Union, tag, read)
}

// The elements of an array, one behind the other. The child is read from the grammar again at each: what is kept across the call stands in
// the frame of each level.
#[cycle(value_readers)]
#[inline(always)]
fn read_array_contents(
    grammar: &[u32],
    node: usize,
    bytes: &[u8],
    rows: &mut [u64],
    count: u64,
    s: State,
) -> Result<State, Stopped>
    requires { Node grammar.now node × (0 < count_word grammar.now node) × Ready bytes.now rows.old s }
    ensures { Reads rows_of_all (elements count (read_val s.capacity bytes.now (tree_of grammar.now (child_word grammar.now (first_word grammar.now node + 0)))) (state_of s)) s.capacity s.begun s.at rows.old result rows.new }
{
    let mut t = s;
    for _ in 0..count {
        let child = child_at(grammar, node, 0);
        t = read_value(grammar, child, bytes, rows, t)?;
    }
    Ok(t)
}

// The fields of a tuple, one behind the other.
#[cycle(value_readers)]
#[inline(always)]
fn read_tuple_contents(
    grammar: &[u32],
    node: usize,
    bytes: &[u8],
    rows: &mut [u64],
    s: State,
) -> Result<State, Stopped>
    requires { Node grammar.now node × Ready bytes.now rows.old s }
    ensures { Reads rows_of_all (read_fields s.capacity bytes.now (child_trees grammar.now (tree_of grammar.now) (first_word grammar.now node) (count_word grammar.now node)) (state_of s)) s.capacity s.begun s.at rows.old result rows.new }
{
    let mut t = s;
    for i in 0..word(grammar, 3 + 3 * node) {
        let child = child_at(grammar, node, i);
        t = read_value(grammar, child, bytes, rows, t)?;
    }
    Ok(t)
}

// The root from the index on, over a table and a record that are admitted.
fn read_root(
    grammar: &[u32],
    bytes: &[u8],
    rows: &mut [u64],
    index: usize,
    capacity: usize,
) -> Result<State, Stopped>
    requires { Admitted grammar.now bytes.now rows.old index capacity }
    ensures { Reads rows_of (read_val capacity bytes.now (tree_of grammar.now 0) (start index)) capacity 0 index rows.old result rows.new }
{
    let s = State {
        at: index,
        begun: 0,
        capacity: capacity,
    };
    read_value(grammar, 0, bytes, rows, s)
}

// The root as a check: no rows are lent. A whole reading gives 11 where the value does not end with the record.
fn check_root(
    grammar: &[u32],
    bytes: &[u8],
    index: usize,
    capacity: usize,
    whole: bool,
) -> Result<State, Stopped>
    requires { Admitted grammar.now bytes.now [] index capacity }
    ensures { (step_of result ≡ map (λ t. t.state) (ended whole bytes.now (read_val capacity bytes.now (tree_of grammar.now 0) (start index)))) × StepKeeps capacity result }
{
    let end = read_root(grammar, bytes, &mut [], index, capacity)?;
    if whole && end.at != bytes.len() {
        return Err(end.stop(refusal::at_byte(refusal::BYTES_LEFT_OVER, end.at)));
    }
    Ok(end)
}

// The capacity named, at most 4,096 and, where rows are lent, at most theirs.
fn capacity_within(capacity: usize, words: usize) -> usize
    ensures { (result ≡ capacity_within capacity words) × (result ≤ 4096) × (0 < words → row_width * result ≤ words) }
{
    if words == 0 {
        return admission::in_force(capacity);
    }
    capacity.min(admission::capacity_of(words))
}

// A value of the root from the index on, whole where the record is to end with it: 1 to 7, then the reading as a check,
// and only where that is accepted the rows lent are filled, so that a refusal leaves every row as it was. A slice with no words
// is no rows lent: a check at the capacity named.
pub fn read(
    grammar: &[u32],
    record: &[u8],
    index: usize,
    capacity: usize,
    whole: bool,
    rows: &mut [u64],
) -> Result<State, Stopped>
    ensures { FillsRows (read_root grammar.now «record».now index (capacity_within capacity (length rows.old)) whole) (capacity_within capacity (length rows.old)) index result rows.old rows.new }
{
    let most = capacity_within(capacity, rows.len());
    let start = State {
        at: index,
        begun: 0,
        capacity: most,
    };
    if let Err(r) = admission::admit(grammar, record, index) {
        return Err(start.stop(r));
    }
    let end = check_root(grammar, record, index, most, whole)?;
    if rows.is_empty() {
        return Ok(end);
    }
    read_root(grammar, record, rows, index, most)
}

// The first field of the root, as a check, over a table and a record that are admitted: it starts at byte 0, behind the root's row.
// Where the root is no tuple or has no field, the state before the root.
fn read_first_field(grammar: &[u32], bytes: &[u8], capacity: usize) -> Result<State, Stopped>
    requires { Admitted grammar.now bytes.now [] 0 capacity × (0 < capacity) }
    ensures { ReadsFirstField grammar.now bytes.now capacity result }
{
    if grammar[1] as u64 == Kind::Tuple.word() && grammar[3] != 0 {
        let child = child_at(grammar, 0, 0);
        let s = State {
            at: 0,
            begun: 1,
            capacity: capacity,
        };
        return read_value(grammar, child, bytes, &mut [], s);
    }
    Ok(State {
        at: 0,
        begun: 0,
        capacity: capacity,
    })
}

// The whole reading as a check at the capacity named and, where it is accepted, the state behind the root's first field.
pub fn check_first_field(grammar: &[u32], record: &[u8], capacity: usize) -> Result<State, Stopped>
    ensures { (step_of result ≡ first_field_of grammar.now «record».now (in_force capacity)) × StepKeeps (in_force capacity) result }
{
    let end = read(grammar, record, 0, capacity, true, &mut [])?;
    read_first_field(grammar, record, end.capacity)
}
