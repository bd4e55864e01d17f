// The answers of the library as answers of the C interface: one struct of words for every call.
#![tactic(auto)]

ghost use Rattle.std.specs.Prelude.{◌≡◌};
ghost use Rattle.refusal.specs.Outcome.{map};
ghost use Rattle.refusal.specs.Meaning.{reason_of, outcome_of};
ghost use Rattle.rows.specs.Meaning.{part_of};
ghost use Rattle.comparing.specs.SameRoute.{same_route_of};
ghost use Rattle.accepting.specs.Accepts.{verdict_named};
ghost use Rattle.answer_c.specs.Answer.{Values, values, answer_of, refusal_of, no_value, one_value, signed_value, part_values, count_values, preview_values, choice_values, verdict_values, import_values, same_answer_of};

use accepting::Verdict;
use choosing::Chosen;
use comparing::Unread;
use importing::Imported;
use previewing::Previewed;
use reading::Parsed;
use refusal::{Place, Refusal};
use rows::Located;

// The header's `route_answer`.
#[repr(C)]
#[derive(Clone, Copy, Debug, PartialEq, Eq)]
pub struct RouteAnswer {
    pub number: u64,
    pub place_kind: u64,
    pub place: u64,
    pub first: u64,
    pub second: u64,
}

// What an accepted call gives, as the first and the second value of its answer; 0 where it gives fewer than two.
pub trait TwoValues: Copy {
    ghost values_of: { Self → Values };

    fn two_values(self) -> (u64, u64)
        ensures { values_of self ≡ values result.0 result.1 };
}

impl TwoValues for () {
    ghost values_of = { no_value };

    fn two_values(self) -> (u64, u64) {
        (0, 0)
    }
}

impl TwoValues for u32 {
    ghost values_of = { one_value };

    fn two_values(self) -> (u64, u64) {
        (u64::from(self), 0)
    }
}

impl TwoValues for u64 {
    ghost values_of = { one_value };

    fn two_values(self) -> (u64, u64) {
        (self, 0)
    }
}

// A signed number is given as its 64-bit pattern.
impl TwoValues for i64 {
    ghost values_of = { signed_value };

    #[tactic(auto, unfolding(value::specs::Signed::pattern_of))]
    fn two_values(self) -> (u64, u64) {
        (self.cast_unsigned(), 0)
    }
}

impl TwoValues for Located {
    ghost values_of = { λ p. part_values (part_of p) };

    fn two_values(self) -> (u64, u64) {
        (self.start as u64, self.size as u64)
    }
}

impl TwoValues for Parsed {
    ghost values_of = { λ p. count_values (record { rows = p.rows; rest_index = p.rest_index }) };

    fn two_values(self) -> (u64, u64) {
        (self.rows as u64, self.rest_index as u64)
    }
}

impl TwoValues for Previewed {
    ghost values_of = { λ p. preview_values (record { size = p.size; changed = p.changed }) };

    fn two_values(self) -> (u64, u64) {
        (self.size, self.changed)
    }
}

impl TwoValues for Chosen {
    ghost values_of = { λ c. choice_values (record { number = c.number; begun = c.begun }) };

    fn two_values(self) -> (u64, u64) {
        (self.number as u64, self.begun as u64)
    }
}

// 1 for yes and 0 for no, and the values begun.
impl TwoValues for Verdict {
    ghost values_of = { λ v. verdict_values (verdict_named v) };

    fn two_values(self) -> (u64, u64) {
        (u64::from(self.accepted), self.begun as u64)
    }
}

impl TwoValues for Imported {
    ghost values_of = { λ i. import_values (record { rows = i.rows; used = i.used }) };

    fn two_values(self) -> (u64, u64) {
        (self.rows as u64, self.used as u64)
    }
}

fn accept(first: u64, second: u64) -> RouteAnswer
    ensures { result ≡ record { number = 0; place_kind = 0; place = 0; first = first; second = second } }
{
    RouteAnswer {
        number: 0,
        place_kind: 0,
        place: 0,
        first,
        second,
    }
}

// A refusal has no values; `named` is the record that it names, 1 or 2, and 0 where it names none.
fn refuse(refusal: Refusal, named: u64) -> RouteAnswer
    ensures { result ≡ refusal_of (reason_of refusal) named }
{
    let (place_kind, place) = match refusal.place {
        Place::Word(at) => (1, at),
        Place::Byte(at) => (2, at),
        Place::Row(at) => (3, at),
    };
    RouteAnswer {
        number: refusal.number,
        place_kind,
        place,
        first: 0,
        second: named,
    }
}

pub fn of_result<T: TwoValues>(answer: Result<T, Refusal>) -> RouteAnswer
    ensures { result ≡ answer_of (map T.values_of (outcome_of answer)) }
{
    match answer {
        Ok(value) => {
            let (first, second) = value.two_values();
            accept(first, second)
        }
        Err(refusal) => refuse(refusal, 0),
    }
}

// 1 for yes and 0 for no; a refusal names the record that it is of.
pub fn of_same_route(answer: Result<bool, Unread>) -> RouteAnswer
    ensures { result ≡ same_answer_of (same_route_of answer) }
{
    match answer {
        Ok(same) => accept(u64::from(same), 0),
        Err(Unread::Grammar(refusal)) => refuse(refusal, 0),
        Err(Unread::First(refusal)) => refuse(refusal, 1),
        Err(Unread::Second(refusal)) => refuse(refusal, 2),
    }
}
