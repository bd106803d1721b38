// A day's weighings in a store, and the cells of a strip as a reader sees them.
#![tactic(auto)]

ghost use Rattle.std.specs.Prelude.{◌≡◌, min, length};
ghost use Rattle.store.specs.Cells.{cleared, copied};
ghost use Rattle.store.specs.Bays.{bay_cells, BayBeside};
ghost use Rattle.weighings.specs.Lines.{line_at};

use std::fmt;
use store::{Bay, Store, clear, copy};
use strip::Strip;

// Writes the numbers into the first cells, as far as both go, and answers how many.
pub fn write_all<S: Store>(store: &mut S, numbers: &[i32]) -> usize
    ensures value { result ≡ min (length numbers.now) (length (S.cells store.old)) }
    ensures after { S.cells store.new ≡ copied numbers.now (S.cells store.old) }
    ensures rest { S.beside store.old store.new }
{
    copy(&numbers, store)
}

// Writes the day into a bay: the weighings one after another, then 0 in the cells that are left.
// Nothing else of the store below is changed.
pub fn lay_day<S: Store>(mut bay: Bay<S>, weighings: &[i32]) -> Bay<S>
    ensures cells { bay_cells S.cells result ≡ copied weighings.now (cleared bay.len (bay_cells S.cells bay)) }
    ensures rest { BayBeside S.cells S.beside bay result }
{
    let len = bay.len;
    clear(&mut bay, len);
    write_all(&mut bay, weighings);
    bay
}

// A cell with its own four bytes and the number that they are.
#[derive(Clone, Copy, Debug, PartialEq, Eq)]
pub struct Line {
    pub cell: usize,
    pub bytes: [u8; 4],
    pub number: i32,
}

// The line of cell `n`, if the strip has it.
pub fn line_at(strip: &Strip, n: usize) -> Option<Line>
    ensures { result ≡ line_at strip.now.bytes.now n }
{
    let bytes = strip.cell_bytes(n)?;
    Some(Line {
        cell: n,
        bytes,
        number: i32::from_be_bytes(bytes),
    })
}

impl fmt::Display for Line {
    fn fmt<W: fmt::Write>(&self, f: &mut fmt::Formatter<W>) -> fmt::Result {
        let cell = self.cell;
        let [a, b, c, d] = self.bytes;
        let number = self.number;
        write!(
            f,
            "cell {cell:>2}   {a:02x} {b:02x} {c:02x} {d:02x}   {number:>11}"
        )
    }
}
