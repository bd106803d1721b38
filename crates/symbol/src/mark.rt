// The symbols that are no words: operators, brackets and separators.
#[derive(Clone, Copy, Debug, PartialEq, Eq)]
pub enum Mark {
    // +
    Plus,
    // -
    Minus,
    // *
    Times,
    // /
    Slash,
    // =
    Equal,
    // <>
    NotEqual,
    // <
    Less,
    // <=
    LessEqual,
    // >
    Greater,
    // >=
    GreaterEqual,
    // :=
    Becomes,
    // (
    LeftParen,
    // )
    RightParen,
    // [
    LeftBracket,
    // ]
    RightBracket,
    // .
    Dot,
    // ,
    Comma,
    // :
    Colon,
    // ;
    Semicolon,
}
