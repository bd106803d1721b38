// Worked examples of runs, as definitions of specs/; each function stands for a group of them.
#![tactic(auto)]

ghost use Rattle.std.specs.Prelude.{◌≡◌, true};
ghost use Rattle.worked.specs.Calls.{CallsWorked};
ghost use Rattle.worked.specs.Depths.{DepthsWorked};
ghost use Rattle.worked.specs.Flow.{FlowWorked};
ghost use Rattle.worked.specs.Refused.{RefusedWorked};
ghost use Rattle.worked.specs.Traps.{TrapsWorked};

// Examples of calls, actuals and results compute as they are told.
pub fn calls_compute() -> bool
    ensures { (result ≡ true) × CallsWorked }
{
    true // calls, actuals and results
}

// Examples of places and depths of actions compute as they are told.
pub fn depths_compute() -> bool
    ensures { (result ≡ true) × DepthsWorked }
{
    true // places and depths
}

// Examples of the order of bodies, tests and turns compute as they are told.
pub fn flow_compute() -> bool
    ensures { (result ≡ true) × FlowWorked }
{
    true // bodies, tests and turns
}

// Examples of traps, and where arrays are opened compute as they are told.
pub fn traps_compute() -> bool
    ensures { (result ≡ true) × TrapsWorked }
{
    true // traps and closed types
}

// Programs that break a rule are not well-formed.
pub fn refused_compute() -> bool
    ensures { (result ≡ true) × RefusedWorked }
{
    true // one rule each
}
