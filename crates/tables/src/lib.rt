// The two tables of document 01 by their words: the grammar table and the value rows. Every call takes any slice and any number.
#![tactic(auto)]

ghost use Rattle.std.specs.Prelude.{◌≡◌, ◌∷◌, [], ◌+◌, ◌*◌, ◌<◌, get_or};
ghost use Rattle.tables.specs.Grammar.{first_word, child_word};
ghost use Rattle.tables.specs.Row.{row_width, row_at, laid};

// The words of a row.
pub const ROW_WIDTH: usize = 5;

// The rows of the largest value, and of the largest capacity.
pub const MOST_ROWS: usize = 4096;

// The bytes of the longest record, store or value that is written.
pub const MOST_BYTES: usize = 1048576;

// The words of a row: the kind, the rows of the value, word 2, word 3 and the bytes of the value.
#[derive(Clone, Copy, Debug, PartialEq, Eq)]
pub struct Row {
    pub kind: u64,
    pub span: u64,
    pub word2: u64,
    pub word3: u64,
    pub size: u64,
}

// Word i of a row that the slice does not hold whole: the row behind the whole ones may have some of its words.
fn cut_word(rows: &[u64], row: usize, i: usize) -> u64
    requires { i < row_width }
    ensures { result ≡ get_or rows.now (row_width * row + i) 0 }
{
    if rows.len() / ROW_WIDTH < row {
        return 0;
    }
    rows.get(ROW_WIDTH * row + i).copied().unwrap_or(0)
}

// Word i of a row. Rows are compared by division, so that no product wraps, and the words of one row by the same test.
fn row_word(rows: &[u64], row: usize, i: usize) -> u64
    requires { i < row_width }
    ensures { result ≡ get_or rows.now (row_width * row + i) 0 }
{
    if row < rows.len() / ROW_WIDTH {
        rows[ROW_WIDTH * row + i]
    } else {
        cut_word(rows, row, i)
    }
}

pub fn kind_at(rows: &[u64], row: usize) -> u64
    ensures { result ≡ (row_at rows.now row).kind }
{
    row_word(rows, row, 0)
}

pub fn span_at(rows: &[u64], row: usize) -> u64
    ensures { result ≡ (row_at rows.now row).span }
{
    row_word(rows, row, 1)
}

pub fn word2_at(rows: &[u64], row: usize) -> u64
    ensures { result ≡ (row_at rows.now row).word2 }
{
    row_word(rows, row, 2)
}

pub fn word3_at(rows: &[u64], row: usize) -> u64
    ensures { result ≡ (row_at rows.now row).word3 }
{
    row_word(rows, row, 3)
}

// The size of the row's value, as the row says.
pub fn size_at(rows: &[u64], row: usize) -> u64
    ensures { result ≡ (row_at rows.now row).size }
{
    row_word(rows, row, 4)
}

// Puts a row where the slice has all its words, else nothing.
pub fn put_row(rows: &mut [u64], at: usize, row: Row)
    ensures { rows.new ≡ laid rows.old at (row.kind ∷ row.span ∷ row.word2 ∷ row.word3 ∷ row.size ∷ []) }
{
    if at < rows.len() / ROW_WIDTH {
        let first = ROW_WIDTH * at;
        rows[first] = row.kind;
        rows[first + 1] = row.span;
        rows[first + 2] = row.word2;
        rows[first + 3] = row.word3;
        rows[first + 4] = row.size;
    }
}

// A word of a grammar table; 0 where there is none.
pub fn word(words: &[u32], at: usize) -> usize
    ensures { (result ≡ get_or words.now at 0) × (result < 4294967296) }
{
    words.get(at).map_or(0, |w| *w as usize)
}

// Which child word is a node's first.
fn first_word(words: &[u32], node: usize) -> usize
    ensures { (result ≡ first_word words.now node) × (result < 4294967296) }
{
    if node < words.len() {
        word(words, 2 + 3 * node)
    } else {
        0
    }
}

// Child i of a node: a node number.
pub fn child_at(words: &[u32], node: usize, i: usize) -> usize
    ensures { (result ≡ child_word words.now (first_word words.now node + i)) × (result < 4294967296) }
{
    let nodes = word(words, 0);
    let first = first_word(words, node);
    if i < words.len() {
        word(words, 2 + 3 * nodes + (first + i))
    } else {
        0
    }
}
