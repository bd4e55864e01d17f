// Sizing: the size of the value that rows with their store stand for, where it may be written by a grammar; or the first refusal.
#![tactic(auto)]

ghost use Rattle.std.specs.Prelude.{◌≡◌, ◌<◌};
ghost use Rattle.refusal.specs.Outcome.{bind, map};
ghost use Rattle.refusal.specs.Meaning.{outcome_of};
ghost use Rattle.packed.specs.Packed.{room};
ghost use Rattle.value.specs.Tree.{SizeOfV};
ghost use Rattle.tables.specs.Grammar.{node_count, first_word, count_word};
ghost use Rattle.grammar.specs.Rule.{Passes};
ghost use Rattle.grammar.specs.Tree.{tree_of, child_trees};
ghost use Rattle.rows.specs.Size.{AtMost};
ghost use Rattle.sizing.specs.InGrammar.{check_all_in_grammar, check_each_in_grammar};
ghost use Rattle.sizing.specs.Checks.{Standing, StandingAll, Checks, ChecksAll};
ghost use Rattle.sizing.specs.Writes.{value_in_grammar, check_size, marshall_val_of};

use refusal::Refusal;
use value::Kind;

// GM's `ValInGrammar`, of the value whose own row this is and the tree of a node: 15 at the first row of another kind, count or
// tag. Its calls nest once for each level of the tree, of which 256 nodes have 256 at most.
#[cycle(in_grammar_checks)]
fn check_in_grammar(rows: &[u64], grammar: &[u32], row: usize, node: usize) -> Result<(), Refusal>
    requires { Passes grammar.now × (node < node_count grammar.now) × Standing rows.now row }
    ensures { Checks rows.now row (tree_of grammar.now node) result }
{
    let kind = tables::kind_at(rows, row);
    let word2 = tables::word2_at(rows, row);
    let count = tables::word(grammar, 3 + 3 * node) as u64;
    let other = refusal::at_row(refusal::NOT_IN_GRAMMAR, row);
    if kind != tables::word(grammar, 1 + 3 * node) as u64 {
        return Err(other);
    }
    match Kind::of_word(kind) {
        Some(Kind::Constant | Kind::Number(_) | Kind::Elements(_)) => Ok(()),
        Some(Kind::Array) => {
            let element = tables::child_at(grammar, node, 0);
            check_all_in_grammar(rows, grammar, row + 1, word2, element)
        }
        Some(Kind::Tuple) => {
            if word2 != count {
                return Err(other);
            }
            check_each_in_grammar(rows, grammar, row + 1, node)
        }
        Some(Kind::Union) => {
            if count <= word2 {
                return Err(other);
            }
            let case = tables::child_at(grammar, node, word2 as usize);
            check_in_grammar(rows, grammar, row + 1, case)
        }
        None => Err(other),
    }
}

// The elements of an array, each against the one node.
#[cycle(in_grammar_checks)]
fn check_all_in_grammar(
    rows: &[u64],
    grammar: &[u32],
    row: usize,
    count: u64,
    node: usize,
) -> Result<(), Refusal>
    requires { Passes grammar.now × (node < node_count grammar.now) × StandingAll rows.now count row }
    ensures { ChecksAll rows.now count row (λ vs. check_all_in_grammar vs (tree_of grammar.now node) row) result }
{
    let mut i = row;
    for _ in 0..count {
        check_in_grammar(rows, grammar, i, node)?;
        i += tables::span_at(rows, i) as usize;
    }
    Ok(())
}

// The fields of a tuple, each against its own node.
#[cycle(in_grammar_checks)]
fn check_each_in_grammar(
    rows: &[u64],
    grammar: &[u32],
    row: usize,
    node: usize,
) -> Result<(), Refusal>
    requires { Passes grammar.now × (node < node_count grammar.now) × StandingAll rows.now (count_word grammar.now node) row }
    ensures { ChecksAll rows.now (count_word grammar.now node) row (λ vs. check_each_in_grammar vs (child_trees grammar.now (tree_of grammar.now) (first_word grammar.now node) (count_word grammar.now node)) row) result }
{
    let mut i = row;
    for k in 0..tables::word(grammar, 3 + 3 * node) {
        let child = tables::child_at(grammar, node, k);
        check_in_grammar(rows, grammar, i, child)?;
        i += tables::span_at(rows, i) as usize;
    }
    Ok(())
}

// GM's `ComputeSizeOf` of a value of the grammar, whatever its size: 1 to 6, 12 to 14, then 15.
pub fn size_in_grammar(
    grammar: &[u32],
    rows: &[u64],
    n: usize,
    store: &[u8],
) -> Result<u64, Refusal>
    ensures { (outcome_of result ≡ map SizeOfV (value_in_grammar grammar.now rows.now n store.now)) × AtMost 4293951488 (outcome_of result) }
{
    grammar::check_grammar(grammar)?;
    let size = rows::compute_size_of(rows, n, store)?;
    check_in_grammar(rows, grammar, 0, 0)?;
    Ok(size)
}

// Refusal 16, of a size by any rule of bytes.
pub fn check_size(size: u64) -> Result<u64, Refusal>
    ensures { outcome_of result ≡ check_size size size }
{
    refusal::accept_if(
        size <= tables::MOST_BYTES as u64,
        refusal::at_row(refusal::SIZE_TOO_LARGE, 0),
    )?;
    Ok(size)
}

// Refusal 16, then 17 where an output of len bytes has no room for so many at the index.
pub fn check_room(size: u64, len: usize, index: usize) -> Result<u64, Refusal>
    ensures { outcome_of result ≡ bind (check_size size size) (λ n. map (λ _. n) (room len index n)) }
{
    check_size(size)?;
    packed::room(len, index, size as usize, 1)?;
    Ok(size)
}

// What the writers answer, without writing: the size, or the first refusal, 17 last.
pub fn size_to_write(
    grammar: &[u32],
    rows: &[u64],
    n: usize,
    store: &[u8],
    len: usize,
    index: usize,
) -> Result<u64, Refusal>
    ensures { outcome_of result ≡ map SizeOfV (marshall_val_of grammar.now rows.now n store.now len index) }
{
    let size = size_in_grammar(grammar, rows, n, store)?;
    check_room(size, len, index)
}
