// What a program does, as definitions of specs/; each function stands for a law of runs, which is its contract.
#![tactic(auto)]

ghost use Rattle.std.specs.Prelude.{◌≡◌, true};
ghost use Rattle.meaning.specs.Actions.{deepest};
ghost use Rattle.meaning.specs.Typing.{TypesKept};
ghost use Rattle.meaning.specs.Hiding.{ModulesHide};
ghost use Rattle.meaning.specs.Examples.{Worked};

// If nobody else writes, the cells hold values of their types all along, and an action traps exactly where it has a cause.
pub fn types_kept() -> bool
    ensures { (result ≡ true) × TypesKept }
{
    true // from every start on
}

// A cell changes only in the text of the module that declares it, or where that text lent it; count and cells beyond never change.
pub fn modules_hide() -> bool
    ensures { (result ≡ true) × ModulesHide }
{
    true // whoever writes between the calls
}

// The worked examples compute as they are told.
pub fn examples_compute() -> bool
    ensures { (result ≡ true) × Worked }
{
    true // by computation alone
}

// The greatest depth of an action; one that would be deeper traps.
pub fn greatest_depth() -> u16
    ensures { result ≡ deepest }
{
    400
}
