// A way along the symbols of a text: what all readers of the grammar are made of.
#![tactic(auto)]

ghost use Rattle.std.specs.Prelude.{◌≡◌, [], ◌∷◌, ◌++◌, map, Bool, is_ok, if◌then◌else◌};
ghost use Rattle.symbol.specs.Symbols.{Sym, sym_of, placed_of};
ghost use Rattle.cursor.specs.declared.Halt.TheVariants.{NoMemory};
ghost use Rattle.cursor.specs.Kinds.{sym_is_mark, sym_is_word, sym_is_name};
ghost use Rattle.cursor.specs.Reading.{head, tail, expect, expect_end, ident_of, number_of, idents_of, mapped, further_of};
ghost use Rattle.symbol.specs.declared.mark.Mark.TheVariants.{Comma};
ghost use Rattle.cursor.specs.Promises.{lex_of, halt_at, Follows, Opens};

use fault::{Cause, Fault};
use std::alloc::{AllocError, AllocFailed, Global};
use std::marker::Model;
use symbol::{Mark, Placed, Symbol, Word};

// A name, a number or a character as it is written, and its place. Not one generic type with `Placed`: the fields' names say what
// stands at the place.
#[derive(Clone, Copy, Debug, PartialEq, Eq)]
pub struct Lexeme<'t> {
    pub text: &'t [u8],
    pub place: usize,
}

// Why reading stops.
#[derive(Clone, Copy, Debug, PartialEq, Eq)]
pub enum Halt {
    // at a symbol
    Wrong(Fault),
    // where the symbols are used up: what stopped the reading of symbols tells the place
    Ended(Cause),
    NoMemory,
}

// Both kinds of want of memory: `?` meets the second on a Vec's push, the first on what makes a node with a box.
impl From<AllocError> for Halt {
    ghost from_gives = { λ _ r. r ≡ NoMemory };

    fn from(_e: AllocError) -> Halt {
        Halt::NoMemory
    }
}

impl<T: Drop> From<AllocFailed<T>> for Halt {
    ghost from_gives = { λ _ r. r ≡ NoMemory };

    fn from(_e: AllocFailed<T>) -> Halt {
        Halt::NoMemory
    }
}

// Puts an item at a list's end; without memory the list stays as it is. Most lists of a text are short, so the room grows from one
// item on, doubling, where `push` alone would make room for four at first.
pub fn append<T: Drop>(list: &mut Vec<T>, item: T) -> Result<(), AllocError>
    ensures { list.new.items ≡ (if is_ok result then list.old.items ++ item ∷ [] else list.old.items) }
{
    let len = list.len();
    if len == list.capacity() {
        list.reserve_exact(len.max(1))?;
    }
    list.push(item)?;
    Ok(())
}

// A symbol that is always written the same way: a mark or a reserved word.
pub trait Terminal: Copy {
    ghost is: { Self → Sym → Bool };

    fn is(self, symbol: Symbol<'_>) -> bool
        ensures { result ≡ is self (sym_of symbol.entry) };
}

impl Terminal for Mark {
    ghost is = { sym_is_mark };

    fn is(self, symbol: Symbol<'_>) -> bool {
        matches!(symbol, Symbol::Mark(found) if found == self)
    }
}

impl Terminal for Word {
    ghost is = { sym_is_word };

    fn is(self, symbol: Symbol<'_>) -> bool {
        matches!(symbol, Symbol::Word(found) if found == self)
    }
}

// A name is written in many ways, so it is no `Terminal`.
pub fn is_name(symbol: Symbol) -> bool
    ensures { result ≡ sym_is_name (sym_of symbol.entry) }
{
    matches!(symbol, Symbol::Name(_))
}

// A way along the symbols of a text.
#[derive(Debug, Drop)]
pub struct Cursor<'s, 't> {
    rest: &'s [Placed<'t>],
    pub heap: Global,
}

// A contract sees the symbols that are not read yet.
impl<'s, 't> Model for Cursor<'s, 't> {
    ghost use Rattle.std.specs.Prelude.{List, map};
    ghost use Rattle.symbol.specs.Symbols.{PlacedSym, placed_of};

    ghost Value = { List PlacedSym };

    ghost view = { λ c. map placed_of c.rest.now };
}

// The proofs of the methods look into what these definitions say.
#[tactic(auto, unfolding(crate::specs::Reading::head, crate::specs::Reading::tail, crate::specs::Reading::expect, crate::specs::Reading::expect_end, crate::specs::Reading::ident_of, crate::specs::Reading::number_of))]
impl<'s, 't> Cursor<'s, 't> {
    pub fn new(symbols: &'s [Placed<'t>], heap: Global) -> Cursor<'s, 't>
        ensures { result ≡ map placed_of symbols.now }
    {
        Cursor {
            rest: symbols,
            heap,
        }
    }

    // The first symbol that is not read yet. `End` and no option where none is left: a reader looks at a symbol in every state.
    pub fn first(&self) -> Placed<'t>
        ensures { placed_of result ≡ head self.now }
    {
        match self.rest {
            [] => Placed {
                symbol: Symbol::End,
                place: 0,
            },
            [first, ..] => *first,
        }
    }

    pub fn advance(&mut self)
        ensures { self.new ≡ tail self.old }
    {
        if let [_, rest @ ..] = self.rest {
            self.rest = rest;
        }
    }

    pub fn at<T: Terminal>(&self, sought: T) -> bool
        ensures { result ≡ T.is sought (head self.now).symbol }
    {
        sought.is(self.first().symbol)
    }

    pub fn at_name(&self) -> bool
        ensures { result ≡ sym_is_name (head self.now).symbol }
    {
        is_name(self.first().symbol)
    }

    // The fault that the first symbol is.
    pub fn halt(&self, cause: Cause) -> Halt
        ensures { result ≡ halt_at cause self.now }
    {
        match self.rest {
            [] => Halt::Ended(cause),
            [first, ..] => Halt::Wrong(Fault::new(cause, first.place)),
        }
    }

    // Goes past the mark or the word that must come here.
    pub fn pass<T: Terminal>(&mut self, sought: T) -> Result<(), Halt>
        ensures { Follows (λ _. tt) result self.new (expect (T.is sought) self.old) }
    {
        if !self.at(sought) {
            return Err(self.halt(Cause::Syntax));
        }
        self.advance();
        Ok(())
    }

    // Nothing more may come.
    pub fn end(&self) -> Result<(), Halt>
        ensures { Follows (λ _. tt) result self.now (expect_end self.now) }
    {
        match self.rest {
            [] => Ok(()),
            _ => Err(self.halt(Cause::Syntax)),
        }
    }

    // Reads the first symbol, and gives the text that the caller found there, with its place.
    pub fn take(&mut self, text: &'t [u8]) -> Lexeme<'t>
        ensures { (lex_of result ≡ (text.now, (head self.old).place)) × (self.new ≡ tail self.old) }
    {
        let place = self.first().place;
        self.advance();
        Lexeme { text, place }
    }

    pub fn ident(&mut self) -> Result<Lexeme<'t>, Halt>
        ensures { Follows lex_of result self.new (ident_of self.old) }
    {
        match self.first().symbol {
            Symbol::Name(text) => Ok(self.take(text)),
            _ => Err(self.halt(Cause::Syntax)),
        }
    }

    // A match as for a name, since a case cannot be a parameter.
    pub fn number(&mut self) -> Result<Lexeme<'t>, Halt>
        ensures { Follows lex_of result self.new (number_of self.old) }
    {
        match self.first().symbol {
            Symbol::Number(text) => Ok(self.take(text)),
            _ => Err(self.halt(Cause::Syntax)),
        }
    }

    // Reads the symbol that opens one level more.
    pub fn deeper(&mut self, allowance: u8) -> Result<u8, Halt>
        ensures { Opens allowance result self.old self.new }
    {
        let Some(deeper) = allowance.checked_sub(1) else {
            return Err(self.halt(Cause::TooDeep));
        };
        self.advance();
        Ok(deeper)
    }

    // Names, parted by commas.
    pub fn idents(&mut self) -> Result<Vec<Lexeme<'t>>, Halt>
        ensures { Follows (λ v. map lex_of v.items) result self.new (idents_of self.old) }
    {
        let first = self.ident()?;
        self.idents_after(first)
    }

    // The same, behind the first name. Not for any item: the other lists stand in cycles of calls, which cannot go through such a reader.
    pub fn idents_after(&mut self, first: Lexeme<'t>) -> Result<Vec<Lexeme<'t>>, Halt>
        ensures { Follows (λ v. map lex_of v.items) result self.new (mapped (λ bs. lex_of first.entry ∷ bs) (further_of Comma ident_of self.old)) }
    {
        let mut names = Vec::new(self.heap);
        names.push(first)?;
        while self.at(Mark::Comma) {
            self.advance();
            names.push(self.ident()?)?;
        }
        Ok(names)
    }
}
