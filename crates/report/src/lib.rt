// What yardcheck tells of a text.
#![tactic(auto)]

ghost use Rattle.report.specs.Lines.{Counts, Tells};

use fault::LoadError;
use lexing::read_symbols;
use std::alloc::Global;

// How many symbols the text has, unless it has a fault.
fn count_symbols(heap: Global, text: &[u8]) -> Result<usize, LoadError>
    ensures { Counts text.now result }
{
    let symbols = read_symbols(heap, text)?;
    let count = symbols.list.len();
    symbols.stop?;
    Ok(count)
}

// One line: how many symbols the text has, or its first fault.
pub fn report(heap: Global, text: &[u8]) -> Result<String, LoadError>
    ensures { Tells text.now result }
{
    match count_symbols(heap, text) {
        Ok(count) => Ok(format!(in heap; "{count} symbols")?),
        Err(LoadError::Text(fault)) => Ok(format!(in heap; "{fault}")?),
        Err(LoadError::NoMemory) => Err(LoadError::NoMemory),
    }
}
