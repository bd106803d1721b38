// The tree of a type, and constants.
#![tactic(auto)]

pub mod makers;

use cursor::Lexeme;
use expression_tree::Sign;

#[derive(Clone, Copy, Debug, PartialEq, Eq)]
pub enum Constant<'t> {
    Number(Option<Sign>, Lexeme<'t>),
    Name(Lexeme<'t>),
    Character(Lexeme<'t>),
}

// A writing of a type has its place; a name is known by its own. A record has one section at least.
#[derive(Debug, PartialEq, Eq, Drop)]
#[cycle(type_expr)]
pub enum TypeExpr<'t> {
    Named(Lexeme<'t>),
    Enumeration(usize, Vec<Lexeme<'t>>),
    Array(usize, Constant<'t>, Constant<'t>, Box<TypeExpr<'t>>),
    Record(usize, Vec<Section<'t>>),
}

// Fields of one type.
#[derive(Debug, PartialEq, Eq, Drop)]
#[cycle(type_expr)]
pub struct Section<'t> {
    pub names: Vec<Lexeme<'t>>,
    pub field: TypeExpr<'t>,
}
