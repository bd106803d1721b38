// The step machine, as definitions of specs/; each function stands for a theorem on it, which is its contract.
#![tactic(auto)]

ghost use Rattle.std.specs.Prelude.{◌≡◌, true};
ghost use Rattle.machine.specs.Theorems.{Simulates, MovesFind, StaysLow, FewWait, AllPresent, CallsCovered, DepthReckoned};
ghost use Rattle.meaning.specs.Order.{InOrder};

// The machine does exactly the actions of the meaning, on every sequence of calls.
pub fn machine_simulates() -> bool
    ensures { (result ≡ true) × Simulates }
{
    true // action by action
}

// What is done follows from the program and the accepted calls alone, one action a step, and the state tells what is left.
pub fn in_order() -> bool
    ensures { (result ≡ true) × InOrder }
{
    true // refused calls count for nothing
}

// The loop that looks at the first task finds the next action, and ends.
pub fn moves_find() -> bool
    ensures { (result ≡ true) × MovesFind }
{
    true // each move loses weight
}

// The list of tasks is never higher than what was reckoned from the program.
pub fn stays_low() -> bool
    ensures { (result ≡ true) × StaysLow }
{
    true // at every call and between them
}

// No more values and variables wait than what was reckoned from the program.
pub fn few_wait() -> bool
    ensures { (result ≡ true) × FewWait }
{
    true // before every action too
}

// Every open call has its leave among the tasks, so no more calls are open than there are tasks.
pub fn calls_covered() -> bool
    ensures { (result ≡ true) × CallsCovered }
{
    true // entered and left together
}

// No task ever looks in vain for a value or a variable that waits.
pub fn all_present() -> bool
    ensures { (result ≡ true) × AllPresent }
{
    true // whatever the program
}

// The depth is what waits, the calls open and the statements open in all their bodies, and the next action tells it.
pub fn depth_reckoned() -> bool
    ensures { (result ≡ true) × DepthReckoned }
{
    true // after all calls
}
