// Why the checker says no, in which layer, and where.
ghost use Rattle.std.specs.Prelude.{◌≡◌, Some};
ghost use Rattle.memory.specs.Numbers.{refusal_number, layer_number};
ghost use Rattle.memory.specs.Words.{refusal_words, layer_words};

use std::fmt;

// Each refusal with its number.
#[derive(Clone, Copy, Debug, PartialEq, Eq)]
pub enum Refusal {
    Malformed = 1,
    Foreign = 2,
    Decided = 3,
    Sealed = 4,
    Unsealed = 5,
    Full = 6,
    Stranger = 7,
    Kind = 8,
    Blank = 9,
    Range = 10,
    Backward = 11,
    Twin = 12,
    Spent = 13,
    Bare = 14,
    Short = 15,
    Unfounded = 16,
    Hollow = 17,
}

// Run bytes; the content of a head or a record, and calls on a case; paper bytes; lines and a paper's conclusion.
#[derive(Clone, Copy, Debug, PartialEq, Eq)]
pub enum Layer {
    RunBytes = 1,
    Content = 2,
    PaperBytes = 3,
    Conclusion = 4,
}

#[derive(Clone, Copy, Debug, PartialEq, Eq)]
pub struct Fault {
    pub refusal: Refusal,
    pub layer: Layer,
    pub place: usize,
}

impl From<Refusal> for u8 {
    ghost from_gives = { λ refusal r. r ≡ refusal_number refusal };

    fn from(refusal: Refusal) -> u8 {
        refusal as u8
    }
}

impl From<Layer> for u8 {
    ghost from_gives = { λ layer r. r ≡ layer_number layer };

    fn from(layer: Layer) -> u8 {
        layer as u8
    }
}

// What the refusal means, in a sentence; its name alone is what `{:?}` prints.
impl fmt::Display for Refusal {
    ghost output = { λ refusal. Some (refusal_words refusal) };

    fn fmt<W: fmt::Write>(&self, f: &mut fmt::Formatter<W>) -> fmt::Result {
        f.write_str(match self {
            Refusal::Malformed =>
                "A field has a wrong tag or length, the bytes end too early or go on behind the end, or a paper's verdict is not 1, 2 or 3.",
            Refusal::Foreign =>
                "A mark in the head is not that of the model or the clock in use, or a paper is of another number of records.",
            Refusal::Decided => "The case is decided, and the call would change it.",
            Refusal::Sealed =>
                "The case is sealed: it takes no more records and no second sealing.",
            Refusal::Unsealed => "A search is asked of an open case.",
            Refusal::Full => "The case already has 64 records.",
            Refusal::Stranger =>
                "The processor is not one of the run's, or the number of processors is not 1 to 16.",
            Refusal::Kind => "The kind is not 1 (load), 2 (store) or 3 (fence).",
            Refusal::Blank => "A store has the value 0, or a fence has an address or a value.",
            Refusal::Range => "The enter or the commit reading is 2^62 or more.",
            Refusal::Backward =>
                "The commit reading is below the enter reading, or the enter reading below the processor's last.",
            Refusal::Twin => "A store has the address and the value of an admitted store.",
            Refusal::Spent => "The steps done and those asked for are more than 2^62 together.",
            Refusal::Bare => "The verdict has no paper.",
            Refusal::Short => "The bytes or the list to be filled are too small.",
            Refusal::Unfounded =>
                "A line of the paper does not follow from the run and the lines before it, or its pair is listed before it.",
            Refusal::Hollow => "The paper's conclusion fails.",
        })
    }
}

impl fmt::Display for Layer {
    ghost output = { λ layer. Some (layer_words layer) };

    fn fmt<W: fmt::Write>(&self, f: &mut fmt::Formatter<W>) -> fmt::Result {
        f.write_str(match self {
            Layer::RunBytes => "run bytes",
            Layer::Content => "content of a head or a record, and calls on a case",
            Layer::PaperBytes => "paper bytes",
            Layer::Conclusion => "lines and conclusion",
        })
    }
}
