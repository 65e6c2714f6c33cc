// What a report says of a trace.
ghost use Rattle.std.specs.Prelude.{Some};
ghost use Rattle.protocol.specs.Reports.{shown_word};

use std::fmt;

// What the owner may do with a trace: nothing more, erase it, or keep it.
#[derive(Clone, Copy, PartialEq, Eq, Debug)]
pub enum Word {
    Erased,
    Free,
    Kept,
}

impl fmt::Display for Word {
    ghost output = { λ word. Some (shown_word word) };

    fn fmt<W: fmt::Write>(&self, f: &mut fmt::Formatter<W>) -> fmt::Result {
        f.write_str(match self {
            Word::Erased => "erased",
            Word::Free => "free",
            Word::Kept => "kept",
        })
    }
}

// The row of a trace: its number, its owner, the word, and how many stations are listed.
#[derive(Clone, Copy, PartialEq, Eq, Debug)]
pub struct Row {
    pub trace: u8,
    pub owner: u8,
    pub word: Word,
    pub listed: u8,
}
