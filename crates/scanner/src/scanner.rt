// The scanner: a text, and the place behind the latest symbol.
ghost use Rattle.std.specs.Prelude.{◌≡◌};
ghost use Rattle.scanner.specs.Scan.{scan};
ghost use Rattle.scanner.specs.States.{text_of, place_in, Starts, answered, next_place, Forward};

use crate::front::front_of;
use crate::gap::skip_gap;
use fault::{Cause, Fault};
use symbol::{Placed, Symbol};

// A text has at most so many bytes.
const LONGEST_TEXT: usize = 16384;

#[derive(Clone, Copy, Debug, PartialEq, Eq)]
pub struct Scanner<'t> {
    text: &'t [u8],
    at: usize,
}

impl<'t> Scanner<'t> {
    // At the beginning of the text, unless it is too long.
    pub fn new(text: &'t [u8]) -> Result<Scanner<'t>, Fault>
        ensures { Starts text.now result }
    {
        if text.len() > LONGEST_TEXT {
            return Err(Fault::new(Cause::TooLong, LONGEST_TEXT));
        }
        Ok(Scanner { text, at: 0 })
    }

    // The next symbol, which at the text's end is `End`, as often as it is asked for: so this is no iterator. A fault leaves the
    // scanner where it was.
    pub fn next(&mut self) -> Result<Placed<'t>, Fault>
        ensures answer { answered result (place_in self.new) ≡ scan (text_of self.old) (place_in self.old) }
        ensures after { place_in self.new ≡ next_place (scan (text_of self.old) (place_in self.old)) (place_in self.old) }
        ensures text { text_of self.new ≡ text_of self.old }
        ensures forward { Forward result (place_in self.old) (place_in self.new) }
    {
        let place = skip_gap(self.text, self.at)?;
        if place >= self.text.len() {
            self.at = place;
            return Ok(Placed {
                symbol: Symbol::End,
                place,
            });
        }
        let Some(front) = front_of(&self.text[place..]) else {
            return Err(Fault::new(Cause::NoSymbol, place));
        };
        self.at = place + front.len;
        Ok(Placed {
            symbol: front.symbol,
            place,
        })
    }
}
