// All symbols of a text.
#![tactic(auto)]

ghost use Rattle.std.specs.Prelude.{◌≡◌, true};
ghost use Rattle.lexing.specs.Examples.{Examples};
ghost use Rattle.lexing.specs.Reading.{Reads};
ghost use Rattle.lexing.specs.Laws.{Lawful};

use fault::{Fault, LoadError};
use scanner::Scanner;
use std::alloc::Global;
use symbol::{Placed, Symbol};

// The symbols of a text in order, up to the place where reading stopped.
#[derive(Debug, PartialEq, Eq, Drop)]
pub struct Symbols<'t> {
    pub list: Vec<Placed<'t>>,
    // the text's end, or what is no symbol
    pub stop: Result<usize, Fault>,
}

// Reads a text. Only a text that is too long, or want of memory, leaves nothing to tell but the error.
pub fn read_symbols<'t>(heap: Global, text: &'t [u8]) -> Result<Symbols<'t>, LoadError>
    ensures value { Reads text.now result }
    ensures law { Lawful text.now result }
{
    let mut scanner = Scanner::new(text)?;
    let mut list = Vec::new(heap);
    let stop = loop {
        match scanner.next() {
            Err(fault) => break Err(fault),
            Ok(next) => match next.symbol {
                Symbol::End => break Ok(next.place),
                _ => list.push(next)?,
            },
        }
    };
    Ok(Symbols { list, stop })
}

// The worked examples of the definitions hold.
pub fn examples_hold() -> bool
    ensures { (result ≡ true) × Examples }
{
    true
}
