// Passes over what stands between symbols: blanks and comments.
ghost use Rattle.std.specs.Prelude.{◌≡◌, drop, slice_index};
ghost use Rattle.scanner.specs.Gaps.{blank, allowed, move_of, gap};

use fault::{Cause, Fault};

// Comments nest so deep.
const DEEPEST: usize = 32;

// What to do at a place between symbols. No closures: the table tells which move it is, and the loop makes it; each is read, and
// proved, without the other.
#[derive(Clone, Copy, Debug, PartialEq, Eq)]
pub enum Move {
    // a comment opens
    Open,
    // the innermost open comment ends
    Close,
    // a blank, or a byte inside a comment
    Pass,
    // a symbol begins, or what should be one
    Stop,
    // one comment too many opens
    TooDeep,
    // a byte that no text may have
    Wrong,
}

pub fn is_blank(c: char) -> bool
    ensures { result ≡ blank c }
{
    matches!(c, '\t' | '\n' | '\r' | ' ')
}

// The characters that a text may have.
fn is_allowed(c: char) -> bool
    ensures { result ≡ allowed c }
{
    is_blank(c) || matches!(c, ' '..='~')
}

// The character at this place, or 0 where the text has ended. No option: no text may have that byte, and two options beside each
// other would have to be taken apart in every row of the moves.
pub fn char_at(text: &[u8], place: usize) -> char
    ensures { result ≡ slice_index text.now place }
{
    text.get(place).map_or('\0', |byte| char::from(*byte))
}

// The move at a character and the one behind it, with so many comments open.
fn move_at(depth: usize, first: char, second: char) -> Move
    ensures { result ≡ move_of depth first second }
{
    match (first, second) {
        ('(', '*') if depth < DEEPEST => Move::Open,
        ('(', '*') => Move::TooDeep,
        _ if depth == 0 && is_blank(first) => Move::Pass,
        _ if depth == 0 => Move::Stop,
        ('*', ')') => Move::Close,
        _ if is_allowed(first) => Move::Pass,
        _ => Move::Wrong,
    }
}

// The first place from here on that is in no blank and no comment.
pub fn skip_gap(text: &[u8], from: usize) -> Result<usize, Fault>
    ensures { result ≡ gap 0 from (drop from text.now) }
{
    // An index, and no walk along the rest: `at` is what is answered, what a fault names, and may lie behind the text.
    let mut at = from;
    let mut depth = 0;
    while at < text.len() {
        let first = char_at(text, at);
        let second = char_at(text, at + 1);
        match move_at(depth, first, second) {
            Move::Open => {
                depth += 1;
                at += 2;
            }
            Move::Close => {
                depth -= 1;
                at += 2;
            }
            Move::Pass => at += 1,
            Move::Stop => return Ok(at),
            Move::TooDeep => return Err(Fault::new(Cause::TooDeep, at)),
            Move::Wrong => return Err(Fault::new(Cause::NoSymbol, at)),
        }
    }
    if depth > 0 {
        Err(Fault::new(Cause::NoSymbol, at))
    } else {
        Ok(at)
    }
}
