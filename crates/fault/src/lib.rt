// What can go wrong, and the number of each: faults of a text, traps of a running program, refusals of a store.
#![tactic(auto)]

ghost use Rattle.std.specs.Prelude.{◌≡◌, Some};
ghost use Rattle.fault.specs.declared.LoadError.TheVariants.{Text, NoMemory};
ghost use Rattle.fault.specs.Numbers.{cause_number, cause_layer, layer_name, fault_at, told, fault_line, load_error_line, trap_number, store_error_number};

use std::alloc::{AllocError, AllocFailed};
use std::error::Error;
use std::fmt;

// Who refused a text: the reader goes by symbols and grammar, the checker by names and types.
#[derive(Clone, Copy, Debug, PartialEq, Eq)]
pub enum Layer {
    Reader,
    Checker,
}

impl Layer {
    pub fn name(self) -> &'static str
        ensures { result.now ≡ layer_name self }
    {
        match self {
            Layer::Reader => "reader",
            Layer::Checker => "checker",
        }
    }
}

impl fmt::Display for Layer {
    ghost output = { λ l. Some (layer_name l) };

    fn fmt<W: fmt::Write>(&self, f: &mut fmt::Formatter<W>) -> fmt::Result {
        f.write_str(self.name())
    }
}

// What is wrong with a text.
#[derive(Clone, Copy, Debug, PartialEq, Eq)]
pub enum Cause {
    // more bytes than a text may have
    TooLong = 1,
    // no symbol begins here, or a comment does not end
    NoSymbol = 2,
    // the symbol cannot follow those before it
    Syntax = 3,
    // too many comments or constructs are open
    TooDeep = 4,
    UnknownName = 5,
    NameTwice = 6,
    // the define list names what its module does not have
    DefineList = 7,
    // a wrong kind or type, or another rule
    WrongKind = 8,
    NotChangeable = 9,
    // an array or record is opened outside the module of its type
    Closed = 10,
    // too many names or cells
    TooMany = 11,
}

// `number` stands at each enum and in no trait: a number is read off the enum itself, so a trait could not share the line.
impl Cause {
    pub fn number(self) -> u8
        ensures { result ≡ cause_number self }
    {
        self as u8
    }

    pub fn layer(self) -> Layer
        ensures { result ≡ cause_layer self }
    {
        match self {
            Cause::TooLong | Cause::NoSymbol | Cause::Syntax | Cause::TooDeep => Layer::Reader,
            Cause::UnknownName
            | Cause::NameTwice
            | Cause::DefineList
            | Cause::WrongKind
            | Cause::NotChangeable
            | Cause::Closed
            | Cause::TooMany => Layer::Checker,
        }
    }
}

// Why a text is refused. `place` is the first byte of what is wrong, counted from 0.
#[derive(Clone, Copy, Debug, PartialEq, Eq)]
pub struct Fault {
    pub cause: Cause,
    pub place: usize,
}

impl Fault {
    pub fn new(cause: Cause, place: usize) -> Fault
        ensures { result ≡ fault_at cause place }
    {
        Fault { cause, place }
    }

    pub fn number(&self) -> u8
        ensures { result ≡ (told self.now).number }
    {
        self.cause.number()
    }

    pub fn layer(&self) -> Layer
        ensures { result ≡ (told self.now).layer }
    {
        self.cause.layer()
    }
}

// `fault NUMBER LAYER PLACE`, as the programs print it.
impl fmt::Display for Fault {
    ghost output = { λ f. Some (fault_line f) };

    fn fmt<W: fmt::Write>(&self, f: &mut fmt::Formatter<W>) -> fmt::Result {
        let number = self.number();
        let layer = self.layer();
        let place = self.place;
        write!(f, "fault {number} {layer} {place}")
    }
}

impl Error for Fault {}

// Why a text could not be loaded: it has a fault, or there was no memory to hold what was read.
#[derive(Clone, Copy, Debug, PartialEq, Eq)]
pub enum LoadError {
    Text(Fault),
    NoMemory,
}

// The fault's line, or that memory was wanting.
impl fmt::Display for LoadError {
    ghost output = { λ e. Some (load_error_line e) };

    fn fmt<W: fmt::Write>(&self, f: &mut fmt::Formatter<W>) -> fmt::Result {
        match self {
            LoadError::Text(fault) => write!(f, "{fault}"),
            LoadError::NoMemory => write!(f, "no memory"),
        }
    }
}

impl Error for LoadError {}

// A fault goes up through the layers as it is.
impl From<Fault> for LoadError {
    ghost from_gives = { λ f r. r ≡ Text f };

    fn from(fault: Fault) -> LoadError {
        LoadError::Text(fault)
    }
}

// `?` needs the two below: a string tells its want of memory by `AllocError`, a `Vec`'s push by `AllocFailed`.
impl From<AllocError> for LoadError {
    ghost from_gives = { λ _ r. r ≡ NoMemory };

    fn from(_e: AllocError) -> LoadError {
        LoadError::NoMemory
    }
}

impl<T: Drop> From<AllocFailed<T>> for LoadError {
    ghost from_gives = { λ _ r. r ≡ NoMemory };

    fn from(_e: AllocFailed<T>) -> LoadError {
        LoadError::NoMemory
    }
}

// Why an action of a running program is not done.
#[derive(Clone, Copy, Debug, PartialEq, Eq)]
pub enum Trap {
    // an index out of its array's bounds
    Index = 31,
    // a divisor that the operator does not take
    Divisor = 32,
    // a result beyond the integers
    Beyond = 33,
    // the program goes too deep
    Depth = 34,
    // a cell that holds no value of its variable's type
    Foreign = 35,
}

impl Trap {
    pub fn number(self) -> u8
        ensures { result ≡ trap_number self }
    {
        self as u8
    }
}

// Why a store refuses to get or put.
#[derive(Clone, Copy, Debug, PartialEq, Eq)]
pub enum StoreError {
    // the store has no cell of this number
    NoCell = 41,
}

impl StoreError {
    pub fn number(self) -> u8
        ensures { result ≡ store_error_number self }
    {
        self as u8
    }
}
