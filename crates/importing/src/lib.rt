// Importing: XDR (RFC 4506) read whole by a grammar, into lent rows and a lent store.
#![tactic(auto)]

ghost use Rattle.std.specs.Prelude.{◌≡◌, List, ◌∷◌, [], ℕ, ◌+◌, ◌*◌, ◌-◌, ◌/◌, ◌^◌, ◌≤◌, ◌<◌, length, take, drop};
ghost use Rattle.refusal.specs.Outcome.{map, reason, word as word_at};
ghost use Rattle.refusal.specs.Meaning.{reason_of, outcome_of};
ghost use Rattle.value.specs.Kinds.{width as number_width, element_width, kind_of, array, tuple, union};
ghost use Rattle.value.specs.Meaning.{number_named, elements_named, kind_word as word_of};
ghost use Rattle.value.specs.Tree.{VNumber, VNumberArray, SizeOfV, SeqSum};
ghost use Rattle.value.specs.Step.{give};
ghost use Rattle.tables.specs.Grammar.{kind_word, count_word};
ghost use Rattle.tables.specs.Row.{laid};
ghost use Rattle.grammar.specs.Tree.{tree_of};
ghost use Rattle.admission.specs.Admission.{capacity_of};
ghost use Rattle.xdr.specs.Xdr.{store_of, store_of_all, rows_in, rows_in_all};
ghost use Rattle.xdr.specs.Import.{zeros as zeros_of, claim as claim_of, move, fill as fill_of, take_number, check_body, take_numbers, import_body, import_fields, import_val, import_whole, start};
ghost use Rattle.importing.specs.Meaning.{filling_of, step_of, StepSize, taken_of, TakenBelow, TakenSize};
ghost use Rattle.importing.specs.Brings.{most_size, Ready, Brings, take_below, closed, Counted, child_place, node_at, trees_at, Children, Node, RowClaimed, Admitted};
ghost use Rattle.importing.specs.Calls.{admit_of, import_of, Imports};

use packed::PackedInt;
use refusal::Refusal;
use tables::Row;
use value::{Elements, Kind, Number};

// The answer of an accepted import: the row count and the bytes of the store used.
#[derive(Clone, Copy, Debug, PartialEq, Eq)]
pub struct Imported {
    pub rows: usize,
    pub used: usize,
}

// The byte position, the values begun, the bytes of the store used, and the bytes that what was imported takes in a record.
#[derive(Clone, Copy)]
struct Filling {
    at: usize,
    begun: usize,
    used: usize,
    size: u64,
}

// What there is to be filled: rows, and bytes of the store. The same in both passes, though the first is lent neither.
#[derive(Clone, Copy)]
struct Lent {
    capacity: usize,
    room: usize,
}

impl Filling {
    // A row for the value that starts here.
    fn claim(self, capacity: usize) -> Result<Filling, Refusal>
        ensures { (step_of result ≡ claim_of capacity (filling_of self)) × StepSize self.size result }
    {
        if self.begun < capacity {
            Ok(Filling {
                begun: self.begun + 1,
                ..self
            })
        } else {
            Err(refusal::at_byte(refusal::ROWS_EXHAUSTED, self.at))
        }
    }

    // n bytes on.
    fn move_on(self, n: usize) -> Filling
        requires { self.at + n < 2 ^ 64 }
        ensures { (filling_of result ≡ move n (filling_of self)) × (result.size ≡ self.size) }
    {
        Filling {
            at: self.at + n,
            ..self
        }
    }

    // n bytes more of the store used.
    fn fill(self, n: usize) -> Filling
        requires { self.used + n < 2 ^ 64 }
        ensures { (filling_of result ≡ fill_of n (filling_of self)) × (result.size ≡ self.size) }
    {
        Filling {
            used: self.used + n,
            ..self
        }
    }

    // n bytes more in a record.
    fn grow(self, n: u64) -> Filling
        requires { self.size + n < 2 ^ 64 }
        ensures { (filling_of result ≡ filling_of self) × (result.size ≡ self.size + n) }
    {
        Filling {
            size: self.size + n,
            ..self
        }
    }

    // The next bytes as a number; 9 where they are missing.
    fn take<T: PackedInt>(self, bytes: &[u8]) -> Result<(u64, Filling), Refusal>
        requires { (self.at ≤ length bytes.now) × (length bytes.now ≤ 1048576) }
        ensures { (taken_of result ≡ take_number bytes.now T.WIDTH (filling_of self)) × TakenBelow (256 ^ T.WIDTH) result × TakenSize self.size result }
    {
        let n: T = big_endian::unpack_big_endian(bytes, self.at)?;
        Ok((n.to_u64(), self.move_on(T::WIDTH)))
    }

    // The next bytes as a number of a kind.
    fn take_number(self, bytes: &[u8], number: Number) -> Result<(u64, Filling), Refusal>
        requires { (self.at ≤ length bytes.now) × (length bytes.now ≤ 1048576) }
        ensures { (taken_of result ≡ take_number bytes.now (number_width (number_named number)) (filling_of self)) × TakenSize self.size result }
    {
        match number {
            Number::Uint32 => self.take::<u32>(bytes),
            Number::Uint64 => self.take::<u64>(bytes),
            Number::Int32 => self.take::<u32>(bytes),
            Number::Int64 => self.take::<u64>(bytes),
        }
    }

    // A count or a tag, of 4 bytes here and of 8 in a record, below a limit; from the limit on it is refused by its number, where the value
    // starts.
    fn take_below(self, bytes: &[u8], limit: u64, number: u64) -> Result<(u64, Filling), Refusal>
        requires { (self.at ≤ length bytes.now) × (length bytes.now ≤ 1048576) × (self.size ≤ most_size) }
        ensures { (taken_of result ≡ take_below bytes.now limit number (filling_of self)) × TakenSize (self.size + 8) result }
    {
        let (n, next) = self.take::<u32>(bytes)?;
        if n < limit {
            Ok((n, next.grow(8)))
        } else {
            Err(refusal::at_byte(number, self.at))
        }
    }
}

// The row of a parent, whose span and size are known once its children are imported; `start` is the size where it started.
fn close_row(
    rows: &mut [u64],
    row: usize,
    kind: Kind,
    word2: u64,
    start: u64,
    children: Result<Filling, Refusal>,
) -> Result<Filling, Refusal>
    requires { Counted row start children }
    ensures { (result ≡ children) × (rows.new ≡ closed row (word_of kind) word2 start children rows.old) }
{
    let next = children?;
    let closed = Row {
        kind: kind.word(),
        span: (next.begun - row) as u64,
        word2: word2,
        word3: 0,
        size: next.size - start,
    };
    tables::put_row(rows, row, closed);
    Ok(next)
}

fn import_constant(rows: &mut [u64], row: usize, s: Filling) -> Filling
    ensures { (result ≡ s) × (rows.new ≡ laid rows.old row (0 ∷ 1 ∷ 0 ∷ 0 ∷ 0 ∷ [])) }
{
    let constant = Row {
        kind: Kind::Constant.word(),
        span: 1,
        word2: 0,
        word3: 0,
        size: 0,
    };
    tables::put_row(rows, row, constant);
    s
}

// Kinds 1, 2, 9 and 10.
fn import_number(
    bytes: &[u8],
    rows: &mut [u64],
    row: usize,
    number: Number,
    s: Filling,
) -> Result<Filling, Refusal>
    requires { (s.at ≤ length bytes.now) × (length bytes.now ≤ 1048576) × (s.size ≤ most_size) }
    ensures { (store : List ℕ) → Brings rows_in store_of SizeOfV (give (VNumber (number_named number)) (take_number bytes.now (number_width (number_named number)) (filling_of s))) row s.used s.size rows.old store result rows.new store }
{
    let (n, next) = s.take_number(bytes, number)?;
    let size = number.width();
    let grown = next.grow(size);
    let taken = Row {
        kind: Kind::Number(number).word(),
        span: 1,
        word2: n,
        word3: 0,
        size: size,
    };
    tables::put_row(rows, row, taken);
    Ok(grown)
}

// Whether all bytes are zero.
fn zeros(bytes: &[u8]) -> bool
    ensures { result ≡ zeros_of bytes.now }
{
    for b in bytes {
        if *b != 0 {
            return false;
        }
    }
    true
}

// What follows the count of the value that starts at `start`, in the part handed on, which starts right behind it: 9, 17, then 23.
fn import_array_body(
    part: &[u8],
    size: usize,
    start: usize,
    used: usize,
    room: usize,
) -> Result<(), Refusal>
    requires { size + 3 < 2 ^ 64 }
    ensures { outcome_of result ≡ check_body room used size part.now start }
{
    let end = size + xdr::padding(size as u64) as usize;
    if part.len() < end {
        return Err(refusal::at_byte(refusal::BYTES_MISSING, start));
    }
    packed::room(room, used, size, 1)?;
    refusal::accept_if(
        zeros(&part[size..end]),
        refusal::at_byte(refusal::PADDING_NOT_ZERO, start),
    )
}

// The count, then the elements, of a kind that is known where this is called, so that the compiler knows width and padding.
#[inline(always)]
fn import_elements_of(
    bytes: &[u8],
    rows: &mut [u64],
    store: &mut [u8],
    row: usize,
    elements: Elements,
    room: usize,
    s: Filling,
) -> Result<Filling, Refusal>
    requires { (s.at ≤ length bytes.now) × (length bytes.now ≤ 1048576) × (s.size ≤ most_size) }
    ensures { Brings rows_in store_of SizeOfV (give (VNumberArray (elements_named elements)) (take_numbers bytes.now room (elements_named elements) (filling_of s))) row s.used s.size rows.old store.old result rows.new store.new }
{
    let (count, next) = s.take::<u32>(bytes)?;
    let place = next.at;
    let size = (elements.width() * count) as usize;
    import_array_body(&bytes[place..], size, s.at, s.used, room)?;
    let end = place + size;
    let whole = 8 + size as u64;
    let taken = Row {
        kind: Kind::Elements(elements).word(),
        span: 1,
        word2: count,
        word3: s.used as u64,
        size: whole,
    };
    tables::put_row(rows, row, taken);
    // A store that is not lent stays as it is.
    let _ = xdr::copy_elements(elements, &bytes[place..end], store, s.used);
    let padding = xdr::padding(size as u64) as usize;
    Ok(next.move_on(size + padding).fill(size).grow(whole))
}

// Kinds 5 to 7: the count, then the elements.
fn import_elements(
    bytes: &[u8],
    rows: &mut [u64],
    store: &mut [u8],
    row: usize,
    elements: Elements,
    room: usize,
    s: Filling,
) -> Result<Filling, Refusal>
    requires { (s.at ≤ length bytes.now) × (length bytes.now ≤ 1048576) × (s.size ≤ most_size) }
    ensures { Brings rows_in store_of SizeOfV (give (VNumberArray (elements_named elements)) (take_numbers bytes.now room (elements_named elements) (filling_of s))) row s.used s.size rows.old store.old result rows.new store.new }
{
    match elements {
        Elements::Bytes => { import_elements_of(bytes, rows, store, row, Elements::Bytes, room, s) }
        Elements::Uint32s => {
            import_elements_of(bytes, rows, store, row, Elements::Uint32s, room, s)
        }
        Elements::Uint64s => {
            import_elements_of(bytes, rows, store, row, Elements::Uint64s, room, s)
        }
    }
}

// Refusal 3, at a node's kind word.
fn refuse_kind(node: usize) -> Refusal
    requires { node < 4294967296 }
    ensures { reason_of result ≡ reason 3 (word_at (1 + 3 * node)) }
{
    refusal::at_word(refusal::NODE_KIND, 1 + 3 * node)
}

// The grammar's word where the child words of a node start.
fn child_place(grammar: &[u32], node: usize) -> usize
    requires { node < 4294967296 }
    ensures { (result ≡ child_place grammar.now node) × (result < 2 ^ 40) }
{
    2 + 3 * tables::word(grammar, 0) + tables::word(grammar, 2 + 3 * node)
}

// The node that a child word names; word 0, the node count, stands for the root.
fn node_at(grammar: &[u32], place: usize) -> usize
    ensures { result ≡ node_at grammar.now place }
{
    if place == 0 {
        return 0;
    }
    tables::word(grammar, place)
}

// The value that starts at s and stands for a node.
#[cycle(value_importers)]
fn import_value(
    grammar: &[u32],
    node: usize,
    bytes: &[u8],
    rows: &mut [u64],
    store: &mut [u8],
    lent: Lent,
    s: Filling,
) -> Result<Filling, Refusal>
    requires { Node grammar.now node × Ready bytes.now rows.old store.old lent s }
    ensures { Brings rows_in store_of SizeOfV (import_val lent.capacity lent.room bytes.now (tree_of grammar.now node) (filling_of s)) s.begun s.used s.size rows.old store.old result rows.new store.new }
{
    let row = s.begun;
    let t = s.claim(lent.capacity)?;
    match Kind::of_word(tables::word(grammar, 1 + 3 * node) as u64) {
        Some(Kind::Constant) => Ok(import_constant(rows, row, t)),
        Some(Kind::Number(number)) => import_number(bytes, rows, row, number, t),
        Some(Kind::Array) => import_array(grammar, node, bytes, rows, store, row, lent, t),
        Some(Kind::Tuple) => import_tuple(grammar, node, bytes, rows, store, row, lent, t),
        Some(Kind::Elements(elements)) => {
            import_elements(bytes, rows, store, row, elements, lent.room, t)
        }
        Some(Kind::Union) => import_case(grammar, node, bytes, rows, store, row, lent, t),
        None => Err(refuse_kind(node)),
    }
}

// Kind 3: the count, at most the rows left, then the elements.
#[cycle(value_importers)]
fn import_array(
    grammar: &[u32],
    node: usize,
    bytes: &[u8],
    rows: &mut [u64],
    store: &mut [u8],
    row: usize,
    lent: Lent,
    s: Filling,
) -> Result<Filling, Refusal>
    requires { RowClaimed grammar.now bytes.now rows.old store.old node array row lent s }
    ensures { Brings rows_in store_of SizeOfV (import_body lent.capacity lent.room bytes.now (tree_of grammar.now node) (filling_of s)) row s.used s.size rows.old store.old result rows.new store.new }
{
    let limit = (lent.capacity - s.begun + 1) as u64;
    let (count, t) = s.take_below(bytes, limit, refusal::ROWS_EXHAUSTED)?;
    let read = import_array_contents(grammar, node, bytes, rows, store, count, lent, t);
    close_row(rows, row, Kind::Array, count, s.size, read)
}

// Kind 4: the fields.
#[cycle(value_importers)]
fn import_tuple(
    grammar: &[u32],
    node: usize,
    bytes: &[u8],
    rows: &mut [u64],
    store: &mut [u8],
    row: usize,
    lent: Lent,
    s: Filling,
) -> Result<Filling, Refusal>
    requires { RowClaimed grammar.now bytes.now rows.old store.old node tuple row lent s }
    ensures { Brings rows_in store_of SizeOfV (import_body lent.capacity lent.room bytes.now (tree_of grammar.now node) (filling_of s)) row s.used s.size rows.old store.old result rows.new store.new }
{
    let count = tables::word(grammar, 3 + 3 * node) as u64;
    let read = import_tuple_contents(grammar, node, bytes, rows, store, count, lent, s);
    close_row(rows, row, Kind::Tuple, count, s.size, read)
}

// Kind 8: the tag, then the value of its case.
#[cycle(value_importers)]
fn import_case(
    grammar: &[u32],
    node: usize,
    bytes: &[u8],
    rows: &mut [u64],
    store: &mut [u8],
    row: usize,
    lent: Lent,
    s: Filling,
) -> Result<Filling, Refusal>
    requires { RowClaimed grammar.now bytes.now rows.old store.old node union row lent s }
    ensures { Brings rows_in store_of SizeOfV (import_body lent.capacity lent.room bytes.now (tree_of grammar.now node) (filling_of s)) row s.used s.size rows.old store.old result rows.new store.new }
{
    let limit = tables::word(grammar, 3 + 3 * node) as u64;
    let (tag, t) = s.take_below(bytes, limit, refusal::TAG_UNKNOWN)?;
    let place = child_place(grammar, node) + tag as usize;
    let read = import_children(grammar, place, 0, 1, bytes, rows, store, lent, t);
    close_row(rows, row, Kind::Union, tag, s.size, read)
}

// The elements of an array, one behind the other.
#[cycle(value_importers)]
fn import_array_contents(
    grammar: &[u32],
    node: usize,
    bytes: &[u8],
    rows: &mut [u64],
    store: &mut [u8],
    count: u64,
    lent: Lent,
    s: Filling,
) -> Result<Filling, Refusal>
    requires { Node grammar.now node × (kind_of (kind_word grammar.now node) ≡ array) × Ready bytes.now rows.old store.old lent s }
    ensures { Brings rows_in_all store_of_all SeqSum (import_fields lent.capacity lent.room bytes.now (trees_at grammar.now (child_place grammar.now node) 0 count) (filling_of s)) s.begun s.used s.size rows.old store.old result rows.new store.new }
{
    let place = child_place(grammar, node);
    import_children(grammar, place, 0, count, bytes, rows, store, lent, s)
}

// The fields of a tuple, one behind the other.
#[cycle(value_importers)]
fn import_tuple_contents(
    grammar: &[u32],
    node: usize,
    bytes: &[u8],
    rows: &mut [u64],
    store: &mut [u8],
    count: u64,
    lent: Lent,
    s: Filling,
) -> Result<Filling, Refusal>
    requires { Node grammar.now node × (count ≡ count_word grammar.now node) × Ready bytes.now rows.old store.old lent s }
    ensures { Brings rows_in_all store_of_all SeqSum (import_fields lent.capacity lent.room bytes.now (trees_at grammar.now (child_place grammar.now node) 1 count) (filling_of s)) s.begun s.used s.size rows.old store.old result rows.new store.new }
{
    let place = child_place(grammar, node);
    import_children(grammar, place, 1, count, bytes, rows, store, lent, s)
}

// So many values, of the nodes that child words name, one or no word on at each. All values go through this one loop, and each of the
// other readers is called from one place, so that the compiler makes one function of the cycle (docs/PERFORMANCE.md).
#[cycle(value_importers)]
fn import_children(
    grammar: &[u32],
    place: usize,
    step: usize,
    count: u64,
    bytes: &[u8],
    rows: &mut [u64],
    store: &mut [u8],
    lent: Lent,
    s: Filling,
) -> Result<Filling, Refusal>
    requires { Children grammar.now place step count × Ready bytes.now rows.old store.old lent s }
    ensures { Brings rows_in_all store_of_all SeqSum (import_fields lent.capacity lent.room bytes.now (trees_at grammar.now place step count) (filling_of s)) s.begun s.used s.size rows.old store.old result rows.new store.new }
{
    let mut t = s;
    let mut at = place;
    for _ in 0..count {
        t = import_value(grammar, node_at(grammar, at), bytes, rows, store, lent, t)?;
        at += step;
    }
    Ok(t)
}

// The root from byte 0 on, over a table and a record that are admitted.
fn import_root(
    grammar: &[u32],
    bytes: &[u8],
    rows: &mut [u64],
    store: &mut [u8],
    lent: Lent,
) -> Result<Filling, Refusal>
    requires { Admitted grammar.now bytes.now rows.old store.old lent }
    ensures { Brings rows_in store_of SizeOfV (import_val lent.capacity lent.room bytes.now (tree_of grammar.now 0) start) 0 0 0 rows.old store.old result rows.new store.new }
{
    let s = Filling {
        at: 0,
        begun: 0,
        used: 0,
        size: 0,
    };
    import_children(grammar, 0, 0, 1, bytes, rows, store, lent, s)
}

// The root as a check: neither rows nor a store are lent. 11 where the value does not end with the record.
fn check_root(grammar: &[u32], bytes: &[u8], lent: Lent) -> Result<Filling, Refusal>
    requires { Admitted grammar.now bytes.now [] [] lent }
    ensures { step_of result ≡ map (λ t. t.state) (import_whole lent.capacity lent.room bytes.now (tree_of grammar.now 0)) }
{
    let end = import_root(grammar, bytes, &mut [], &mut [], lent)?;
    if end.at != bytes.len() {
        return Err(refusal::at_byte(refusal::BYTES_LEFT_OVER, end.at));
    }
    Ok(end)
}

// 1 to 5 of the grammar, 6 of the record and of the store.
#[tactic(auto, unfolding(crate::specs::Calls::admit_of, admission::specs::Admission::check_length))]
fn admit(grammar: &[u32], bytes: &[u8], store: &[u8]) -> Result<(), Refusal>
    ensures { outcome_of result ≡ admit_of grammar.now bytes.now (length store.now) }
{
    grammar::check_grammar(grammar)?;
    admission::check_length(bytes)?;
    admission::check_length(store)
}

// A value of the grammar from its XDR, which is to end with it: 1 to 6, then the import as a check, and only where that is accepted
// rows and store are filled, so that a refusal leaves both as they were.
pub fn import_xdr(
    grammar: &[u32],
    record: &[u8],
    rows: &mut [u64],
    store: &mut [u8],
) -> Result<Imported, Refusal>
    ensures { Imports (import_of grammar.now «record».now (capacity_of (length rows.old)) (length store.old)) result rows.old store.old rows.new store.new }
{
    let lent = Lent {
        capacity: admission::capacity_of(rows.len()),
        room: store.len(),
    };
    admit(grammar, record, store)?;
    check_root(grammar, record, lent)?;
    let end = import_root(grammar, record, rows, store, lent)?;
    Ok(Imported {
        rows: end.begun,
        used: end.used,
    })
}
