// What is read of the symbols of a text, as definitions of specs/: plain trees of statements and programs, and one reader for each rule
// of the grammar. The readers of expressions and types stand in their own crates, with the code that is held to them.
#![tactic(auto)]

// The word that may stand before a section of formals. A section without one is const.
#[derive(Clone, Copy, Debug, PartialEq, Eq)]
pub enum Marking {
    Const,
    Var,
}

// What a part declares.
#[derive(Clone, Copy, Debug, PartialEq, Eq)]
pub enum PartKind {
    Constants,
    Types,
    Variables,
}

// What stands in a module.
#[derive(Clone, Copy, Debug, PartialEq, Eq)]
pub enum DeclarationKind {
    Part(PartKind),
    Procedure,
    Module,
}
