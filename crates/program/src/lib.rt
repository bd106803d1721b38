// The resolved program, as plain data of specs/; each function stands for a theorem on it, which is its contract.
#![tactic(auto)]

ghost use Rattle.std.specs.Prelude.{◌≡◌, true};
ghost use Rattle.program.specs.Theorems.{Decided};

// The Bool function `well_formed` answers true exactly for the well-formed programs.
pub fn well_formed_decided() -> bool
    ensures { (result ≡ true) × Decided }
{
    true // both ways
}
