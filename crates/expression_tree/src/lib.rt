// The tree of an expression. Names, numbers and characters are parts of the text. A tree is as deep as its text is nested: what the
// grammar repeats stands in a `Vec`.
#![tactic(auto)]

pub mod makers;

use cursor::Lexeme;

#[derive(Clone, Copy, Debug, PartialEq, Eq)]
pub enum Relation {
    Equal,
    NotEqual,
    Less,
    LessEqual,
    Greater,
    GreaterEqual,
}

#[derive(Clone, Copy, Debug, PartialEq, Eq)]
pub enum Sign {
    Plus,
    Minus,
}

#[derive(Clone, Copy, Debug, PartialEq, Eq)]
pub enum Adding {
    Plus,
    Minus,
    Or,
    Xor,
}

#[derive(Clone, Copy, Debug, PartialEq, Eq)]
pub enum Multiplying {
    Times,
    Slash,
    Div,
    Mod,
    And,
}

#[derive(Debug, PartialEq, Eq, Drop)]
#[cycle(expression)]
pub enum Expression<'t> {
    Plain(Box<Simple<'t>>),
    Related(Box<Simple<'t>>, Relation, Box<Simple<'t>>),
}

// The place of the first symbol, a sign, the first term and those added to it.
#[derive(Debug, PartialEq, Eq, Drop)]
#[cycle(expression)]
pub struct Simple<'t> {
    pub place: usize,
    pub sign: Option<Sign>,
    pub first: Term<'t>,
    pub addends: Vec<Addend<'t>>,
}

#[derive(Debug, PartialEq, Eq, Drop)]
#[cycle(expression)]
pub struct Addend<'t> {
    pub adding: Adding,
    pub term: Term<'t>,
}

#[derive(Debug, PartialEq, Eq, Drop)]
#[cycle(expression)]
pub struct Term<'t> {
    pub first: Factor<'t>,
    pub multipliers: Vec<Multiplier<'t>>,
}

#[derive(Debug, PartialEq, Eq, Drop)]
#[cycle(expression)]
pub struct Multiplier<'t> {
    pub multiplying: Multiplying,
    pub factor: Factor<'t>,
}

// Parentheses and not have their place.
#[derive(Debug, PartialEq, Eq, Drop)]
#[cycle(expression)]
pub enum Factor<'t> {
    Number(Lexeme<'t>),
    Character(Lexeme<'t>),
    Variable(Lexeme<'t>, Vec<Selector<'t>>),
    Call(Lexeme<'t>, Vec<Expression<'t>>),
    Paren(usize, Box<Expression<'t>>),
    Not(usize, Box<Factor<'t>>),
}

// What is chosen of a variable: a field, or what the indices of one bracket tell.
#[derive(Debug, PartialEq, Eq, Drop)]
#[cycle(expression)]
pub enum Selector<'t> {
    Field(Lexeme<'t>),
    Index(Vec<Expression<'t>>),
}
