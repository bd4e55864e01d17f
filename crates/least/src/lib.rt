// The least length of the records of a grammar, worked out for each of its nodes from the last back to the root.
#![tactic(auto)]

ghost use Rattle.std.specs.Prelude.{◌≡◌, ◌<◌, ◌^◌, List, ℕ, Option, get_or, set};
ghost use Rattle.refusal.specs.Meaning.{outcome_of};
ghost use Rattle.value.specs.Least.{add_least, min_least, least, fold_least};
ghost use Rattle.tables.specs.Grammar.{first_word, count_word};
ghost use Rattle.grammar.specs.Rule.{Passes};
ghost use Rattle.grammar.specs.Tree.{child_trees, tree_of};
ghost use Rattle.least.specs.Entries.{Blocks, entries};
ghost use Rattle.least.specs.Least.{length_of, FilledFrom, Ready, least_of};

use refusal::Refusal;
use std::marker::Model;
use value::Kind;

// The mark of a node that has no value.
const NO_VALUE: u32 = u32::MAX;

// Where a sum stops growing: one byte more than the longest record has.
const LARGEST_SUM: u32 = 1048577;

// The entries of the nodes: 256, in four blocks of 64. For a local of more than 256 bytes the compiler calls memset of the C library, which the
// archive must not need, so each block is a local of its own that is lent.
#[derive(Drop)]
struct Entries<'a> {
    a: &'a mut [u32; 64],
    b: &'a mut [u32; 64],
    c: &'a mut [u32; 64],
    d: &'a mut [u32; 64],
}

impl<'a> Model for Entries<'a> {
    ghost Value = { List ℕ };

    ghost view = { λ e. entries e.a.now e.b.now e.c.now e.d.now };

    ghost invariant = { λ e. Blocks e.a.now e.b.now e.c.now e.d.now };
}

impl Entries<'_> {
    // A node's entry.
    #[tactic(auto, unfolding(crate::specs::Entries::entries))]
    fn get(&self, node: usize) -> u32
        requires { node < 256 }
        ensures { result ≡ get_or self.now node 0 }
    {
        let block: &[u32; 64] = if node < 64 {
            &*self.a
        } else if node < 128 {
            &*self.b
        } else if node < 192 {
            &*self.c
        } else {
            &*self.d
        };
        block[node % 64]
    }

    #[tactic(auto, using(crate::proofs::Blocks::set_steps))]
    fn set(&mut self, node: usize, length: u32)
        requires { node < 256 }
        ensures { self.new ≡ set self.old node length }
    {
        if node < 64 {
            self.a[node] = length;
        } else if node < 128 {
            self.b[node - 64] = length;
        } else if node < 192 {
            self.c[node - 128] = length;
        } else {
            self.d[node - 192] = length;
        }
    }
}

// The sum. No addition wraps.
#[tactic(auto, unfolding(crate::specs::Least::length_of, value::specs::Least::add_least))]
fn add_least(a: u32, b: u32) -> u32
    ensures { length_of result ≡ add_least (length_of a) (length_of b) }
{
    if a == NO_VALUE || b == NO_VALUE {
        return NO_VALUE;
    }
    a.saturating_add(b).min(LARGEST_SUM)
}

// The lesser. The mark is above every length.
#[tactic(auto, unfolding(crate::specs::Least::length_of, value::specs::Least::min_least))]
fn min_least(a: u32, b: u32) -> u32
    ensures { length_of result ≡ min_least (length_of a) (length_of b) }
{
    a.min(b)
}

// The entries of node k's children, joined from the last child to the first.
#[tactic(auto, using(crate::proofs::Laws::child_steps))]
fn join_children<F: Fn(u32, u32) -> u32>(
    grammar: &[u32],
    k: usize,
    entries: &Entries,
    no_child: u32,
    join: F,
) -> u32
    ghost joining: { Option ℕ → Option ℕ → Option ℕ }
    requires ready { Ready k grammar.now entries.now }
    requires callable { F.IsAlwaysCallable join }
    requires joins { (a b n : ℕ) → a < 2 ^ 32 → b < 2 ^ 32 → F.post join a b n → length_of n ≡ joining (length_of a) (length_of b) }
    ensures { length_of result ≡ fold_least joining (length_of no_child) (child_trees grammar.now (tree_of grammar.now) (first_word grammar.now k) (count_word grammar.now k)) }
{
    let mut joined = no_child;
    for i in (0..tables::word(grammar, 3 + 3 * k)).rev() {
        joined = join(entries.get(tables::child_at(grammar, k, i)), joined);
    }
    joined
}

// Node k's entry, from those of its children: a tuple's are added, of a union's the least is taken.
fn node_length(grammar: &[u32], k: usize, entries: &Entries) -> u32
    requires { Ready k grammar.now entries.now }
    ensures { length_of result ≡ least (tree_of grammar.now k) }
{
    match Kind::of_word(tables::word(grammar, 1 + 3 * k) as u64) {
        Some(Kind::Constant) => 0,
        Some(Kind::Number(n)) => n.width() as u32,
        Some(Kind::Array) => 8,
        Some(Kind::Tuple) => join_children(grammar, k, entries, 0, add_least),
        Some(Kind::Elements(_)) => 8,
        Some(Kind::Union) => {
            add_least(8, join_children(grammar, k, entries, NO_VALUE, min_least))
        }
        // not met in a table that passes
        None => 0,
    }
}

// The root's entry, behind those of all nodes, filled from the last node to the root; the others stay 0.
fn fill(grammar: &[u32]) -> u32
    requires { Passes grammar.now }
    ensures { (lengths : List ℕ) × FilledFrom 0 grammar.now lengths × (result ≡ get_or lengths 0 0) }
{
    let mut a = [0; 64];
    let mut b = [0; 64];
    let mut c = [0; 64];
    let mut d = [0; 64];
    let mut entries = Entries {
        a: &mut a,
        b: &mut b,
        c: &mut c,
        d: &mut d,
    };
    for k in (0..tables::word(grammar, 0)).rev() {
        let length = node_length(grammar, k, &entries);
        entries.set(k, length);
    }
    entries.get(0)
}

// The least length of the records of a grammar; none where the grammar has no value.
#[tactic(auto, using(crate::proofs::Laws::checked, crate::proofs::Laws::root_entry), unfolding(crate::specs::Least::length_of))]
pub fn least_length(grammar: &[u32]) -> Result<Option<u64>, Refusal>
    ensures { outcome_of result ≡ least_of grammar.now }
{
    grammar::check_grammar(grammar)?;
    let root = fill(grammar);
    if root == NO_VALUE {
        Ok(None)
    } else {
        Ok(Some(u64::from(root)))
    }
}
