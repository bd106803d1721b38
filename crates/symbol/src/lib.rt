// The symbols of a text, and what names, numbers and characters say.
#![tactic(auto)]

pub mod mark;
pub mod names;
pub mod value;
pub mod word;

pub use mark::Mark;
pub use names::same_name;
pub use value::{character_value, number_value};
pub use word::Word;

// A symbol. Names, numbers and characters are parts of the text.
#[derive(Clone, Copy, Debug, PartialEq, Eq)]
pub enum Symbol<'t> {
    Name(&'t [u8]),
    Number(&'t [u8]),
    Character(&'t [u8]),
    Word(Word),
    Mark(Mark),
    // behind the last symbol of the text; a case and no option, since a reader looks at a symbol in every state
    End,
}

// A symbol and its place: its first byte, counted from 0.
#[derive(Clone, Copy, Debug, PartialEq, Eq)]
pub struct Placed<'t> {
    pub symbol: Symbol<'t>,
    pub place: usize,
}
