// Choosing: which grammar of a list is the first that accepts a record whole.
#![tactic(auto)]

ghost use Rattle.std.specs.Prelude.{◌≡◌, ℕ, ◌+◌, ◌≤◌, ◌<◌, length, get_or, take, drop, eqb};
ghost use Rattle.refusal.specs.Outcome.{word};
ghost use Rattle.refusal.specs.Meaning.{location_of, reason_of, outcome_of};
ghost use Rattle.choosing.specs.Choose.{list_count, count_at, placed_reason, check_list, check_grammars, try_grammars, choose_of, chosen_of};
ghost use Rattle.choosing.specs.Rule.{ListRule, ListPasses};

use refusal::{Place, Refusal};
use tables::MOST_ROWS;

// The most grammars of a list.
const MOST_GRAMMARS: usize = 16;

// The number of the grammar, and the values begun over all tries.
#[derive(Clone, Copy, Debug, PartialEq, Eq)]
pub struct Chosen {
    pub number: usize,
    pub begun: usize,
}

// Whether so many grammars, each after its word count, end with the list.
#[tactic(auto, using(crate::proofs::Laws::list_steps))]
fn fills_list(list: &[u32], count: usize) -> bool
    ensures { result ≡ eqb (count_at list.now count) (length list.now) }
{
    let mut at = 1;
    for _ in 0..count {
        if list.len() <= at {
            return false;
        }
        at += 1 + tables::word(list, at);
    }
    at == list.len()
}

// Refusal 21.
#[tactic(auto, unfolding(crate::specs::Choose::check_list))]
fn check_list(list: &[u32]) -> Result<(), Refusal>
    ensures { outcome_of result ≡ check_list list.now }
{
    let count = tables::word(list, 0);
    refusal::accept_if(
        0 < count && count <= MOST_GRAMMARS && fills_list(list, count),
        refusal::at_word(refusal::LIST_LAYOUT, 0),
    )
}

// The grammar whose word count stands at word `at` of the list.
fn grammar_at(list: &[u32], at: usize) -> &[u32]
    requires { at + get_or list.now at 0 < length list.now }
    ensures { result.now ≡ take (get_or list.now at 0) (drop (at + 1) list.now) }
{
    let start = at + 1;
    &list[start..start + tables::word(list, at)]
}

// The refusal of a grammar whose words begin at word `start` of the list, placed by word of the list.
fn place_in_list(start: usize, refusal: Refusal) -> Refusal
    requires { (w : ℕ) → location_of refusal.place ≡ word w → start + w < 18446744073709551616 }
    ensures { reason_of result ≡ placed_reason start (reason_of refusal) }
{
    match refusal.place {
        Place::Word(at) => refusal::at_word(refusal.number, start + at as usize),
        Place::Byte(_) | Place::Row(_) => refusal,
    }
}

// 1 to 5 of each grammar in order.
#[tactic(auto, using(crate::proofs::Laws::grammar_steps))]
fn check_grammars(list: &[u32]) -> Result<(), Refusal>
    requires { ListRule list.now }
    ensures { outcome_of result ≡ check_grammars list.now 0 (list_count list.now) }
{
    let mut at = 1;
    for j in 0..tables::word(list, 0) {
        let grammar = grammar_at(list, at);
        if let Err(r) = grammar::check_grammar(grammar) {
            return Err(place_in_list(at + 1, r));
        }
        at += 1 + grammar.len();
    }
    Ok(())
}

// The tries in order, up to the first that accepts; 22 where none does.
#[tactic(auto, using(crate::proofs::Laws::try_steps))]
fn try_grammars(list: &[u32], record: &[u8]) -> Result<Chosen, Refusal>
    requires { ListPasses list.now × (length «record».now ≤ 1048576) }
    ensures { chosen_of result ≡ try_grammars list.now «record».now 0 0 (list_count list.now) }
{
    let mut begun = 0;
    let mut at = 1;
    for j in 0..tables::word(list, 0) {
        let grammar = grammar_at(list, at);
        match reading::try_whole(grammar, record, MOST_ROWS) {
            Ok(end) => {
                return Ok(Chosen {
                    number: j,
                    begun: begun + end.begun,
                });
            }
            Err(e) => begun += e.state.begun,
        }
        at += 1 + grammar.len();
    }
    Err(refusal::at_byte(refusal::NO_GRAMMAR_ACCEPTS, 0))
}

// The first grammar of the list that accepts the record whole at the largest capacity. All grammars are checked before the first try.
#[tactic(auto, using(crate::proofs::Rule::choose_steps), unfolding(crate::specs::Choose::choose_of))]
pub fn choose_grammar(list: &[u32], record: &[u8]) -> Result<Chosen, Refusal>
    ensures { chosen_of result ≡ choose_of list.now «record».now }
{
    check_list(list)?;
    check_grammars(list)?;
    admission::check_length(record)?;
    try_grammars(list, record)
}
