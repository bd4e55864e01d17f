// The grammar table's check: the first of refusals 1 to 5 in document 01's order, or accepted.
#![tactic(auto)]

ghost use Rattle.std.specs.Prelude.{◌≡◌, ◌&&◌, ◌+◌, ◌*◌, ◌≤◌, ◌<◌, leb, ltb, eqb};
ghost use Rattle.refusal.specs.Outcome.{accepted, test, reason, word as word_at};
ghost use Rattle.refusal.specs.Meaning.{outcome_of};
ghost use Rattle.tables.specs.Grammar.{node_count, child_count};
ghost use Rattle.grammar.specs.Check.{start_holds, length_holds, check_layout, check_node, check_nodes, check_grammar};
ghost use Rattle.grammar.specs.Rule.{LaidOut};

use refusal::Refusal;

const MOST_NODES: usize = 256;

const MOST_CHILD_WORDS: usize = 1024;

// No table is assumed sound.
#[tactic(auto, using(crate::proofs::Laws::laid_out), unfolding(crate::specs::Check::check_grammar))]
pub fn check_grammar(words: &[u32]) -> Result<(), Refusal>
    ensures { outcome_of result ≡ check_grammar words.now }
{
    check_layout(words)?;
    check_nodes(words)
}

fn start_holds(words: &[u32]) -> bool
    ensures { result ≡ start_holds words.now }
{
    let nodes = tables::word(words, 0);
    !words.is_empty() && 0 < nodes && nodes <= MOST_NODES
}

fn length_holds(words: &[u32]) -> bool
    requires { node_count words.now ≤ 256 }
    ensures { result ≡ length_holds words.now }
{
    let nodes = tables::word(words, 0);
    let at = 1 + 3 * nodes;
    let children = tables::word(words, at);
    at < words.len() && children <= MOST_CHILD_WORDS && words.len() == at + 1 + children
}

// Refusal 1, then 2.
#[tactic(auto, unfolding(crate::specs::Check::check_layout))]
fn check_layout(words: &[u32]) -> Result<(), Refusal>
    ensures { outcome_of result ≡ check_layout words.now }
{
    refusal::accept_if(start_holds(words), refusal::at_word(refusal::NODE_COUNT, 0))?;
    let at = 1 + 3 * tables::word(words, 0);
    refusal::accept_if(
        length_holds(words),
        refusal::at_word(refusal::GRAMMAR_LENGTH, at),
    )
}

// The rule of the kinds without children.
fn is_leaf(first: usize, count: usize) -> bool
    ensures { result ≡ (eqb first 0 && eqb count 0) }
{
    first == 0 && count == 0
}

// Whether the kind's rule is kept and the children lie within the child words. No sum wraps.
fn children_hold(kept: bool, first: usize, count: usize, children: usize) -> bool
    ensures { result ≡ (kept && leb (first + count) children) }
{
    kept && count <= children && first <= children - count
}

// Refusal 4, by whether the kind's rule is kept.
fn check_rule(
    kept: bool,
    at: usize,
    first: usize,
    count: usize,
    children: usize,
) -> Result<(), Refusal>
    ensures { outcome_of result ≡ test (kept && leb (first + count) children) (reason 4 (word_at at)) accepted }
{
    refusal::accept_if(
        children_hold(kept, first, count, children),
        refusal::at_word(refusal::NODE_CHILDREN, at),
    )
}

// Node k by itself: refusal 3, then 4. Document 01 names this form, a match on the copied kind word with an arm for each kind and a range arm
// for refusal 3; so the kinds are not `Kind` here.
#[tactic(auto, unfolding(crate::specs::Check::check_node, value::specs::Kinds::kind_of, value::specs::Kinds::kinds))]
fn check_node(words: &[u32], k: usize, children: usize) -> Result<(), Refusal>
    requires { (k < 256) × (children ≡ child_count words.now) }
    ensures { outcome_of result ≡ check_node words.now k }
{
    let kind = tables::word(words, 1 + 3 * k);
    let at = 2 + 3 * k;
    let first = tables::word(words, at);
    let count = tables::word(words, 3 + 3 * k);
    let leaf = is_leaf(first, count);
    match kind {
        0 => check_rule(leaf, at, first, count, children),
        1 => check_rule(leaf, at, first, count, children),
        2 => check_rule(leaf, at, first, count, children),
        3 => check_rule(count == 1, at, first, count, children),
        4 => check_rule(true, at, first, count, children),
        5 => check_rule(leaf, at, first, count, children),
        6 => check_rule(leaf, at, first, count, children),
        7 => check_rule(leaf, at, first, count, children),
        8 => check_rule(true, at, first, count, children),
        9 => check_rule(leaf, at, first, count, children),
        10 => check_rule(leaf, at, first, count, children),
        11.. => Err(refusal::at_word(refusal::NODE_KIND, 1 + 3 * k)),
    }
}

// Whether a child's number is above its node's and below the node count.
fn child_holds(k: usize, child: usize, nodes: usize) -> bool
    ensures { result ≡ (ltb k child && ltb child nodes) }
{
    k < child && child < nodes
}

// Each node by refusal 3, then 4, then its children from the first, before the next node.
#[tactic(auto, using(crate::proofs::Laws::check_steps))]
fn check_nodes(words: &[u32]) -> Result<(), Refusal>
    requires { LaidOut words.now }
    ensures { outcome_of result ≡ check_nodes words.now 0 (node_count words.now) }
{
    let nodes = tables::word(words, 0);
    let children = tables::word(words, 1 + 3 * nodes);
    'nodes: {
        for k in 0..nodes {
            check_node(words, k, children)?;
            let first = tables::word(words, 2 + 3 * k);
            for j in 0..tables::word(words, 3 + 3 * k) {
                let at = 2 + 3 * nodes + (first + j);
                let child = tables::word(words, at);
                if !child_holds(k, child, nodes) {
                    break 'nodes Err(refusal::at_word(refusal::CHILD_NUMBER, at));
                }
            }
        }
        Ok(())
    }
}
