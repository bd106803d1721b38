// The grammar of the language as a relation between trees and symbols, and that the readers read exactly it.
#![tactic(auto)]

ghost use Rattle.std.specs.Prelude.{◌≡◌, true};
ghost use Rattle.grammar.specs.Theorems.{ExpressionsSound, TypesSound, StatementsSound, ProgramsSound, ExpressionsComplete, TypesComplete, StatementsComplete, ProgramsComplete, Unambiguous, FaultsRefuse};
ghost use Rattle.grammar.specs.Examples.{SmallestProgram, OtherClosingName};

// An expression that is read is one of the grammar.
pub fn expressions_sound() -> bool
    ensures { (result ≡ true) × ExpressionsSound }
{
    true // each expression that is read stands in the grammar
}

// A type that is read is one of the grammar.
pub fn types_sound() -> bool
    ensures { (result ≡ true) × TypesSound }
{
    true // each type that is read does
}

// A statement that is read is one of the grammar.
pub fn statements_sound() -> bool
    ensures { (result ≡ true) × StatementsSound }
{
    true // each statement that is read does
}

// A program that is read is one of the grammar, and nothing is left behind it.
pub fn programs_sound() -> bool
    ensures { (result ≡ true) × ProgramsSound }
{
    true // each program that is read does
}

// An expression of the grammar is read back, where what follows does not go on with it.
pub fn expressions_complete() -> bool
    ensures { (result ≡ true) × ExpressionsComplete }
{
    true // each expression of the grammar is read
}

// A type of the grammar is read back.
pub fn types_complete() -> bool
    ensures { (result ≡ true) × TypesComplete }
{
    true // each type of the grammar is
}

// A statement of the grammar is read back, where what follows does not go on with it.
pub fn statements_complete() -> bool
    ensures { (result ≡ true) × StatementsComplete }
{
    true // each statement of the grammar is
}

// A program of the grammar is read back.
pub fn programs_complete() -> bool
    ensures { (result ≡ true) × ProgramsComplete }
{
    true // each program of the grammar is
}

// A list of symbols is a program in one way at most.
pub fn unambiguous() -> bool
    ensures { (result ≡ true) × Unambiguous }
{
    true // two trees of the same symbols are one
}

// Symbols that are refused are no program.
pub fn faults_refuse() -> bool
    ensures { (result ≡ true) × FaultsRefuse }
{
    true // what is refused has no tree
}

// A program of the grammar.
pub fn smallest_program() -> bool
    ensures { (result ≡ true) × SmallestProgram }
{
    true // module a; end A. is a program
}

// No program: the closing name does not repeat the opening one.
pub fn other_closing_name() -> bool
    ensures { (result ≡ true) × OtherClosingName }
{
    true // module a; end b. is none
}
