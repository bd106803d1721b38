// Reads a text symbol by symbol.
#![tactic(auto)]

mod front;
mod gap;
pub mod scanner;

pub use scanner::Scanner;
