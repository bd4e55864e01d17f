// The theory of values: definitions in specs/, laws in proofs/. As code only the kinds.
#![tactic(auto)]

ghost use Rattle.std.specs.Prelude.{◌≡◌, ◌^◌, ltb};
ghost use Rattle.value.specs.Kinds.{width, element_width, kind_of};
ghost use Rattle.value.specs.Meaning.{number_named, elements_named, kind_named, kind_word};

// The kinds of one number; a signed one is held as its unsigned bit pattern.
#[derive(Clone, Copy, Debug, PartialEq, Eq)]
pub enum Number {
    Uint32,
    Uint64,
    Int32,
    Int64,
}

// The kinds of numbers of one width behind their count.
#[derive(Clone, Copy, Debug, PartialEq, Eq)]
pub enum Elements {
    Bytes,
    Uint32s,
    Uint64s,
}

// The kinds of the papers: what kind words 0 to 10 name.
#[derive(Clone, Copy, Debug, PartialEq, Eq)]
pub enum Kind {
    Constant,
    Number(Number),
    Array,
    Tuple,
    Elements(Elements),
    Union,
}

impl Number {
    // The bytes of the number.
    pub fn width(self) -> u64
        ensures { result ≡ width (number_named self) }
    {
        match self {
            Number::Uint32 | Number::Int32 => 4,
            Number::Uint64 | Number::Int64 => 8,
        }
    }

    // Whether a word has no more than the number's bytes.
    pub fn holds(self, word: u64) -> bool
        ensures { result ≡ ltb word (256 ^ width (number_named self)) }
    {
        match self {
            Number::Uint32 | Number::Int32 => word < 0x1_0000_0000,
            Number::Uint64 | Number::Int64 => true,
        }
    }
}

impl Elements {
    // The bytes of each number.
    pub fn width(self) -> u64
        ensures { result ≡ element_width (elements_named self) }
    {
        match self {
            Elements::Bytes => 1,
            Elements::Uint32s => 4,
            Elements::Uint64s => 8,
        }
    }
}

impl Kind {
    // The kind that a kind word names, by the word's value: 0 to 10 and all above.
    #[tactic(auto, unfolding(crate::specs::Kinds::kind_of, crate::specs::Kinds::kinds))]
    pub fn of_word(word: u64) -> Option<Kind>
        ensures { kind_named result ≡ kind_of word }
    {
        match word {
            0 => Some(Kind::Constant),
            1 => Some(Kind::Number(Number::Uint32)),
            2 => Some(Kind::Number(Number::Uint64)),
            3 => Some(Kind::Array),
            4 => Some(Kind::Tuple),
            5 => Some(Kind::Elements(Elements::Bytes)),
            6 => Some(Kind::Elements(Elements::Uint32s)),
            7 => Some(Kind::Elements(Elements::Uint64s)),
            8 => Some(Kind::Union),
            9 => Some(Kind::Number(Number::Int32)),
            10 => Some(Kind::Number(Number::Int64)),
            11.. => None,
        }
    }

    // The kind word that names it.
    pub fn word(self) -> u64
        ensures { result ≡ kind_word self }
    {
        match self {
            Kind::Constant => 0,
            Kind::Number(Number::Uint32) => 1,
            Kind::Number(Number::Uint64) => 2,
            Kind::Array => 3,
            Kind::Tuple => 4,
            Kind::Elements(Elements::Bytes) => 5,
            Kind::Elements(Elements::Uint32s) => 6,
            Kind::Elements(Elements::Uint64s) => 7,
            Kind::Union => 8,
            Kind::Number(Number::Int32) => 9,
            Kind::Number(Number::Int64) => 10,
        }
    }
}
