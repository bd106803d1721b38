// A store over the host's own bytes: four bytes a cell, the highest first, in two's complement.
#![tactic(auto, using(crate::proofs::Strips::strip_length, crate::proofs::Strips::strip_cell))]

ghost use Rattle.std.specs.Prelude.{◌≡◌, ◌<◌, length, slice_set, refl};
ghost use Rattle.std.proofs.Common.{◌∙◌};
ghost use Rattle.store.specs.Cells.{placed};
ghost use Rattle.strip.specs.Bytes.{strip_cells, cell_bytes, Leftover, with_cell};
ghost use Rattle.strip.specs.Holds.{strip_few, strip_narrow, leftover_along};
ghost use Rattle.strip.specs.Table.{ReadBack, Examples};

use fault::StoreError;
use store::{Cells, Store};

// No strip has more cells, however many bytes there are.
const MOST_CELLS: usize = 4096;

// The bytes left over, after the last whole cell or beyond the 4,096th, are never altered.
#[derive(Debug, Drop)]
pub struct Strip<'a> {
    pub bytes: &'a mut [u8],
}

impl<'a> Strip<'a> {
    // The four bytes of cell `n`, if there is one.
    pub fn cell_bytes(&self, n: usize) -> Option<[u8; 4]>
        ensures { result ≡ cell_bytes self.now.bytes.now n }
    {
        if n >= self.count() {
            return None;
        }
        self.bytes[4 * n..].first_chunk().copied()
    }
}

impl<'a> Cells for Strip<'a> {
    ghost cells = { λ s. strip_cells s.bytes.now };

    fn count(&self) -> usize
        ensures value { result ≡ length (strip_cells self.now.bytes.now) }
        ensures bound { result < 65536 }
    {
        (self.bytes.len() / 4).min(MOST_CELLS)
    }

    fn get(&self, n: usize) -> Result<i32, StoreError> {
        self.cell_bytes(n)
            .map(i32::from_be_bytes)
            .ok_or(StoreError::NoCell)
    }
}

impl<'a> Store for Strip<'a> {
    // It stands over the same bytes, and those left over are as they were.
    ghost beside = { λ s t. (s.bytes.ghost_name ≡ t.bytes.ghost_name) × Leftover s.bytes.now t.bytes.now };

    ghost bounds = { record { few = λ s. strip_few s.bytes.now; narrow = λ s. strip_narrow s.bytes.now } };

    ghost steady = { record { same = λ s. (refl, (refl, refl)); along = λ s t u p q. (p.0 ∙ q.0, leftover_along s.bytes.now t.bytes.now u.bytes.now p.1 q.1) } };

    // The promises of every store, and which bytes there are then.
    fn put(&mut self, n: usize, v: i32) -> Result<(), StoreError>
        ensures value { result ≡ placed (strip_cells self.old.bytes.now) n }
        ensures after { strip_cells self.new.bytes.now ≡ slice_set (strip_cells self.old.bytes.now) n v }
        ensures rest { (self.old.bytes.ghost_name ≡ self.new.bytes.ghost_name) × Leftover self.old.bytes.now self.new.bytes.now }
        ensures bytes { self.new.bytes.now ≡ with_cell self.old.bytes.now n v }
    {
        if n >= self.count() {
            return Err(StoreError::NoCell);
        }
        let at = 4 * n;
        self.bytes[at..at + 4].copy_from_slice(&v.to_be_bytes());
        Ok(())
    }
}

// The bytes of a number are read as that number, and worked examples hold of both.
pub fn bytes_hold() -> bool
    ensures back { ReadBack }
    ensures examples { Examples }
{
    true
}
