// The reserved words. Some stand for parts of the language that are left out, but none may be a name.
ghost use Rattle.std.specs.Prelude.{◌≡◌};
ghost use Rattle.symbol.specs.Words.{word_spelling, reserved, Reserves};

use crate::names::same_name;

#[derive(Clone, Copy, Debug, PartialEq, Eq)]
pub enum Word {
    And,
    Array,
    Begin,
    Case,
    Const,
    Define,
    Device,
    Div,
    Do,
    Else,
    Elsif,
    End,
    Exit,
    If,
    Interface,
    Loop,
    Mod,
    Module,
    Not,
    Of,
    Or,
    Procedure,
    Process,
    Record,
    Repeat,
    Then,
    Type,
    Until,
    Use,
    Value,
    Var,
    When,
    While,
    With,
    Xor,
}

const WORDS: [Word; 35] = [
    Word::And,
    Word::Array,
    Word::Begin,
    Word::Case,
    Word::Const,
    Word::Define,
    Word::Device,
    Word::Div,
    Word::Do,
    Word::Else,
    Word::Elsif,
    Word::End,
    Word::Exit,
    Word::If,
    Word::Interface,
    Word::Loop,
    Word::Mod,
    Word::Module,
    Word::Not,
    Word::Of,
    Word::Or,
    Word::Procedure,
    Word::Process,
    Word::Record,
    Word::Repeat,
    Word::Then,
    Word::Type,
    Word::Until,
    Word::Use,
    Word::Value,
    Word::Var,
    Word::When,
    Word::While,
    Word::With,
    Word::Xor,
];

impl Word {
    // In small letters.
    pub fn spelling(self) -> &'static [u8]
        ensures { result.now ≡ word_spelling self }
    {
        match self {
            Word::And => b"and",
            Word::Array => b"array",
            Word::Begin => b"begin",
            Word::Case => b"case",
            Word::Const => b"const",
            Word::Define => b"define",
            Word::Device => b"device",
            Word::Div => b"div",
            Word::Do => b"do",
            Word::Else => b"else",
            Word::Elsif => b"elsif",
            Word::End => b"end",
            Word::Exit => b"exit",
            Word::If => b"if",
            Word::Interface => b"interface",
            Word::Loop => b"loop",
            Word::Mod => b"mod",
            Word::Module => b"module",
            Word::Not => b"not",
            Word::Of => b"of",
            Word::Or => b"or",
            Word::Procedure => b"procedure",
            Word::Process => b"process",
            Word::Record => b"record",
            Word::Repeat => b"repeat",
            Word::Then => b"then",
            Word::Type => b"type",
            Word::Until => b"until",
            Word::Use => b"use",
            Word::Value => b"value",
            Word::Var => b"var",
            Word::When => b"when",
            Word::While => b"while",
            Word::With => b"with",
            Word::Xor => b"xor",
        }
    }

    // The reserved word that is written so, in capital or small letters. An option and no `TryFrom`: another name is no error.
    pub fn of(name: &[u8]) -> Option<Word>
        ensures value { result ≡ reserved name.now }
        ensures law { Reserves name.now result }
    {
        WORDS
            .iter()
            .copied()
            .find(|word| same_name(name, word.spelling()))
    }
}
