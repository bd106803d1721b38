// The symbol that bytes begin with.
ghost use Rattle.std.specs.Prelude.{◌≡◌, ◌<◌, ◌≤◌, length};
ghost use Rattle.std.specs.Option.{option_map};
ghost use Rattle.scanner.specs.Fronts.{begun_of, run, begins_word, begins_digit, begins_quote, begins_mark, begins};

use crate::gap::char_at;
use symbol::{Mark, Symbol, Word, character_value, number_value};

// A name has so many letters and digits.
const LONGEST_NAME: usize = 24;

// A symbol, and how many bytes it has.
#[derive(Clone, Copy, Debug, PartialEq, Eq)]
pub struct Front<'t> {
    pub symbol: Symbol<'t>,
    pub len: usize,
}

// How many letters and digits stand in front.
fn run_length(text: &[u8]) -> usize
    ensures value { result ≡ run text.now }
    ensures within { result ≤ length text.now }
{
    text.iter()
        .take_while(|byte| byte.is_ascii_alphanumeric())
        .count()
}

// A name or a reserved word: the whole run of letters and digits.
fn word_front<'t>(text: &'t [u8]) -> Option<Front<'t>>
    ensures { option_map begun_of result ≡ begins_word text.now }
{
    let len = run_length(text);
    if len > LONGEST_NAME {
        return None;
    }
    let name = &text[..len];
    let symbol = match Word::of(name) {
        Some(word) => Symbol::Word(word),
        None => Symbol::Name(name),
    };
    Some(Front { symbol, len })
}

// A number or a character: the whole run of letters and digits, so that none directly follows.
fn digit_front<'t>(text: &'t [u8]) -> Option<Front<'t>>
    ensures { option_map begun_of result ≡ begins_digit text.now }
{
    let len = run_length(text);
    let part = &text[..len];
    let symbol = if number_value(part).is_some() {
        Symbol::Number(part)
    } else if character_value(part).is_some() {
        Symbol::Character(part)
    } else {
        return None;
    };
    Some(Front { symbol, len })
}

// A character in quotes.
fn quote_front<'t>(text: &'t [u8]) -> Option<Front<'t>>
    ensures { option_map begun_of result ≡ begins_quote text.now }
{
    let len = if char_at(text, 1) == '"' { 4 } else { 3 };
    let part = text.get(..len)?;
    if character_value(part).is_none() || char_at(text, len).is_ascii_alphanumeric() {
        return None;
    }
    Some(Front {
        symbol: Symbol::Character(part),
        len,
    })
}

// An operator, bracket or separator.
fn mark_front(first: char, second: char) -> Option<Front<'static>>
    ensures { option_map begun_of result ≡ begins_mark first second }
{
    let (mark, len) = match (first, second) {
        ('+', _) => (Mark::Plus, 1),
        ('-', _) => (Mark::Minus, 1),
        ('*', _) => (Mark::Times, 1),
        ('/', _) => (Mark::Slash, 1),
        ('=', _) => (Mark::Equal, 1),
        ('<', '>') => (Mark::NotEqual, 2),
        ('<', '=') => (Mark::LessEqual, 2),
        ('<', _) => (Mark::Less, 1),
        ('>', '=') => (Mark::GreaterEqual, 2),
        ('>', _) => (Mark::Greater, 1),
        (':', '=') => (Mark::Becomes, 2),
        (':', _) => (Mark::Colon, 1),
        ('(', _) => (Mark::LeftParen, 1),
        (')', _) => (Mark::RightParen, 1),
        ('[', _) => (Mark::LeftBracket, 1),
        (']', _) => (Mark::RightBracket, 1),
        ('.', _) => (Mark::Dot, 1),
        (',', _) => (Mark::Comma, 1),
        (';', _) => (Mark::Semicolon, 1),
        _ => return None,
    };
    Some(Front {
        symbol: Symbol::Mark(mark),
        len,
    })
}

// One character decides which kind of symbol begins.
pub fn front_of<'t>(text: &'t [u8]) -> Option<Front<'t>>
    ensures { option_map begun_of result ≡ begins text.now }
{
    let first = char_at(text, 0);
    match first {
        'a'..='z' | 'A'..='Z' => word_front(text),
        '0'..='9' => digit_front(text),
        '"' => quote_front(text),
        _ => mark_front(first, char_at(text, 1)),
    }
}
