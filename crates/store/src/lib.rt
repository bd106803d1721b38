// Stores: lists of cells that are read and written by number. What a store means is said once, by ghost members of the
// traits; what works on stores is proved once, against that meaning.
#![tactic(auto, using(crate::proofs::Windows::window_length, crate::proofs::Loops::copied_zeros))]

ghost use Rattle.std.specs.Prelude.{◌≡◌, ◌<◌, min, true, List, length, replicate, ℤ, pos, slice_set};
ghost use Rattle.store.specs.Cells.{all_cells, cell_at, placed, put_within, cleared, copied};
ghost use Rattle.store.specs.Laws.{Bounds, Steady, Remembers};
ghost use Rattle.store.specs.Boards.{full_few, all_cells_lem};
ghost use Rattle.store.specs.Bays.{bay_cells, BayBeside, bay_bounds, bay_steady, PilesAreBays};

use fault::StoreError;

// Cells to look at: those of a store, or the numbers of a slice.
pub trait Cells {
    // What is looked at: the cells, in their order.
    ghost cells: { Self → List ℤ };

    // How many cells there are.
    fn count(&self) -> usize
        ensures value { result ≡ length (cells self.now) };

    // Cell `n`; refused exactly where there is none.
    fn get(&self, n: usize) -> Result<i32, StoreError>
        ensures { result ≡ cell_at (cells self.now) n };
}

pub trait Store: Cells {
    // Two states of one store between which all that is no cell has stayed the same.
    ghost beside: { Self → Self → Type 0 };

    // Makes cell `n` hold `v`; refused exactly where there is none, and then nothing is changed.
    fn put(&mut self, n: usize, v: i32) -> Result<(), StoreError>
        ensures value { result ≡ placed (Self.cells self.old) n }
        ensures after { Self.cells self.new ≡ slice_set (Self.cells self.old) n v }
        ensures rest { beside self.old self.new };

    // The cells are fewer than 65,536, and each is a number of 32 bits.
    ghost bounds: { Bounds Self.cells };

    // All that is no cell stays the same over no change, and over one change after another.
    ghost steady: { Steady beside };
}

impl<'a> Cells for &'a [i32] {
    ghost cells = { λ s. s.now };

    fn count(&self) -> usize {
        self.len()
    }

    fn get(&self, n: usize) -> Result<i32, StoreError> {
        // the slice's own `get`
        (*self).get(n).copied().ok_or(StoreError::NoCell)
    }
}

// So many cells of 0.
#[derive(Debug, Drop)]
struct Zeros(usize);

impl Cells for Zeros {
    ghost cells = { λ s. replicate s.0 (pos 0) };

    fn count(&self) -> usize {
        self.0
    }

    fn get(&self, n: usize) -> Result<i32, StoreError> {
        (n < self.0).then_some(0).ok_or(StoreError::NoCell)
    }
}

const BOARD_CELLS: usize = 2048;

// A store of its own numbers.
#[derive(Debug, Drop)]
pub struct Board {
    numbers: [i32; BOARD_CELLS],
    ghost full: { length numbers ≡ 2048 },
    ghost narrow: { all_cells numbers ≡ true },
}

impl Board {
    pub fn new() -> Self
        ensures { result.numbers ≡ replicate 2048 (pos 0) }
    {
        Board {
            numbers: [0; BOARD_CELLS],
        }
    }
}

impl Cells for Board {
    ghost cells = { λ s. s.numbers };

    fn count(&self) -> usize
        ensures value { result ≡ length self.now.numbers }
        ensures bound { result < 65536 }
    {
        BOARD_CELLS
    }

    fn get(&self, n: usize) -> Result<i32, StoreError> {
        self.numbers.get(n).copied().ok_or(StoreError::NoCell)
    }
}

impl Store for Board {
    ghost beside = { λ s t. Unit {0} };

    ghost bounds = { record { few = λ s. full_few s.numbers s.full; narrow = λ s. all_cells_lem s.numbers s.narrow } };

    ghost steady = { record { same = λ s. tt; along = λ s t u p q. tt } };

    fn put(&mut self, n: usize, v: i32) -> Result<(), StoreError> {
        if n >= BOARD_CELLS {
            return Err(StoreError::NoCell);
        }
        // An index and not get_mut, after which the library says nothing of an array's elements.
        self.numbers[n] = v;
        Ok(())
    }
}

// A part of the store below: its cells from `first` on, `len` at most, as far as they exist. Any `first` and `len` will do.
#[derive(Debug, Drop)]
pub struct Bay<S> {
    pub below: S,
    pub first: usize,
    pub len: usize,
}

impl<S: Store> Bay<S> {
    // Sets the first cell and the length anew: the bay is then another store, over the same one below. Two numbers and no struct
    // of them: no other function takes both.
    pub fn relocate(&mut self, first: usize, len: usize)
        ensures place { (self.new.first ≡ first) × (self.new.len ≡ len) }
        ensures below { self.new.below ≡ self.old.below }
    {
        self.first = first;
        self.len = len;
    }
}

impl<S: Store> Cells for Bay<S> {
    ghost cells = { bay_cells S.cells };

    fn count(&self) -> usize
        ensures value { result ≡ length (bay_cells S.cells self.now) }
        ensures bound { result < 65536 }
    {
        self.below.count().saturating_sub(self.first).min(self.len)
    }

    fn get(&self, n: usize) -> Result<i32, StoreError> {
        if n >= self.count() {
            return Err(StoreError::NoCell);
        }
        self.below.get(self.first + n)
    }
}

impl<S: Store> Store for Bay<S> {
    ghost beside = { BayBeside S.cells S.beside };

    ghost bounds = { bay_bounds S.cells S.bounds };

    ghost steady = { bay_steady S.cells S.beside S.steady };

    // The promises of every store, and that of the store below exactly one cell is changed, or none.
    fn put(&mut self, n: usize, v: i32) -> Result<(), StoreError>
        ensures value { result ≡ placed (bay_cells S.cells self.old) n }
        ensures after { bay_cells S.cells self.new ≡ slice_set (bay_cells S.cells self.old) n v }
        ensures rest { BayBeside S.cells S.beside self.old self.new }
        ensures below { S.cells self.new.below ≡ put_within self.old.first self.old.len (S.cells self.old.below) n v }
    {
        if n >= self.count() {
            return Err(StoreError::NoCell);
        }
        let at = self.first + n;
        self.below.put(at, v)
    }
}

// Makes the first `n` cells 0, as far as they exist.
pub fn clear<S: Store>(store: &mut S, n: usize)
    ensures after { S.cells store.new ≡ cleared n (S.cells store.old) }
    ensures rest { S.beside store.old store.new }
{
    copy(&Zeros(n), store);
}

// Copies cells from the front of `from` to the front of `to`, as far as both go, and answers how many.
pub fn copy<C: Cells, S: Store>(from: &C, to: &mut S) -> usize
    ensures value { result ≡ min (length (C.cells from.now)) (length (S.cells to.old)) }
    ensures after { S.cells to.new ≡ copied (C.cells from.now) (S.cells to.old) }
    ensures rest { S.beside to.old to.new }
{
    let most = from.count().min(to.count());
    // Cells are read and written by number: an iterator over them would be no shorter.
    for n in 0..most {
        if let Ok(v) = from.get(n) {
            let _ = to.put(n, v);
        }
    }
    most
}

// A store remembers what is put into it and nothing else changes, and a bay on a bay is one bay.
pub fn laws_hold() -> bool
    ensures remembers { Remembers }
    ensures piles { PilesAreBays }
{
    true
}
