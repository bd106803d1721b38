// What works on every store, used on a bay of a bay of a strip.
#![tactic(auto)]

ghost use Rattle.std.specs.Prelude.{◌≡◌};
ghost use Rattle.store.specs.Cells.{window, Around, cleared};
ghost use Rattle.strip.specs.Bytes.{strip_cells, Leftover};

use store::{Bay, Store, clear};
use strip::Strip;

// Clears the first `n` cells of a pile: three cells from cell 2 on, of ten from cell 1 on. Of the strip these are cells 3 to 5.
pub fn clear_in_pile<'a>(strip: Strip<'a>, n: usize) -> Strip<'a>
    ensures cells { window 3 3 (strip_cells result.bytes.now) ≡ cleared n (window 3 3 (strip_cells strip.entry.bytes.now)) }
    ensures around { Around 3 3 (strip_cells strip.entry.bytes.now) (strip_cells result.bytes.now) }
    ensures leftover { Leftover strip.entry.bytes.now result.bytes.now }
    ensures named { result.bytes.ghost_name ≡ strip.entry.bytes.ghost_name }
{
    let lower = Bay {
        below: strip,
        first: 1,
        len: 10,
    };
    let mut upper = Bay {
        below: lower,
        first: 2,
        len: 3,
    };
    clear(&mut upper, n);
    upper.below.below
}

// Clears the first `n` cells of the host's bytes: the bytes left over are the host's own, and unaltered.
pub fn clear_bytes(bytes: &mut [u8], n: usize)
    ensures cells { strip_cells bytes.new ≡ cleared n (strip_cells bytes.old) }
    ensures leftover { Leftover bytes.old bytes.new }
{
    let mut strip = Strip { bytes };
    clear(&mut strip, n);
}

#[cfg(test)]
mod tests {
    use super::*;
    use fault::StoreError;
    use std::process::Abort;
    use std::test::Fail;
    use store::{Board, Cells, Store, copy};

    // Both sides of the last cell; a refused put changes nothing.
    fn check_end<S: Store>(rt: &impl Abort, store: &mut S, count: usize) {
        assert_eq!(rt; store.count(), count);
        assert_eq!(rt; store.put(count, 5), Err(StoreError::NoCell));
        assert_eq!(rt; store.get(count), Err(StoreError::NoCell));
        if count > 0 {
            assert_eq!(rt; store.put(count - 1, 7), Ok(()));
            assert_eq!(rt; store.get(count - 1), Ok(7));
        }
        assert_eq!(rt; store.put(usize::MAX, 5), Err(StoreError::NoCell));
        assert_eq!(rt; store.count(), count);
    }

    #[test]
    fn board_ends(rt: HostRuntime) {
        let mut board = Board::new();
        assert_eq!(rt; board.get(2047), Ok(0));
        check_end(&rt, &mut board, 2048);
    }

    // Bytes, then the cells they have: up to three bytes are left over, and all beyond the 4,096th cell.
    #[test]
    fn strip_ends(rt: HostRuntime) -> Result<(), Fail> {
        for (len, count) in [
            (0, 0),
            (3, 0),
            (4, 1),
            (5, 1),
            (6, 1),
            (7, 1),
            (8, 2),
            (16_383, 4095),
            (16_384, 4096),
            (16_385, 4096),
            (16_391, 4096),
        ] {
            let mut bytes = [9; 16_391];
            let (part, _) = bytes.split_at_mut_checked(len).ok_or("too long")?;
            check_end(&rt, &mut Strip { bytes: part }, count);
            assert!(rt; count <= 4096);
            for byte in bytes.iter().skip(4 * count) {
                assert_eq!(rt; *byte, 9);
            }
        }
        Ok(())
    }

    // First cell, length, and the cells there are of a board.
    #[test]
    fn bay_ends(rt: HostRuntime) {
        let mut bay = Bay {
            below: Board::new(),
            first: 0,
            len: 0,
        };
        for (first, len, count) in [
            (0, 0, 0),
            (0, 1, 1),
            (0, 2048, 2048),
            (0, 2049, 2048),
            (40, 3, 3),
            (2046, 2, 2),
            (2046, 3, 2),
            (2047, usize::MAX, 1),
            (2048, 1, 0),
            (usize::MAX, usize::MAX, 0),
        ] {
            bay.relocate(first, len);
            check_end(&rt, &mut bay, count);
        }
    }

    // Relocated, a bay shows other cells of the same store.
    #[test]
    fn bay_relocated(rt: HostRuntime) {
        let mut bay = Bay {
            below: Board::new(),
            first: 5,
            len: 2,
        };
        assert_eq!(rt; bay.put(1, -3), Ok(()));
        assert_eq!(rt; bay.below.get(6), Ok(-3));
        bay.relocate(6, 1);
        assert_eq!(rt; bay.get(0), Ok(-3));
        assert_eq!(rt; bay.get(1), Err(StoreError::NoCell));
    }

    // Numbers and their bytes, written and read.
    #[test]
    fn bytes_of_numbers(rt: HostRuntime) {
        for (number, expected) in [
            (0, [0, 0, 0, 0]),
            (1, [0, 0, 0, 1]),
            (305_419_896, [0x12, 0x34, 0x56, 0x78]),
            (-1, [0xff, 0xff, 0xff, 0xff]),
            (-256, [0xff, 0xff, 0xff, 0]),
            (-2_147_483_647, [0x80, 0, 0, 1]),
            (i32::MIN, [0x80, 0, 0, 0]),
            (i32::MAX, [0x7f, 0xff, 0xff, 0xff]),
        ] {
            let mut bytes = [0; 4];
            let mut strip = Strip { bytes: &mut bytes };
            assert_eq!(rt; strip.put(0, number), Ok(()));
            assert_eq!(rt; strip.get(0), Ok(number));
            assert_eq!(rt; bytes, expected);
        }
    }

    // Of six cells and three bytes left over, the pile's first two become 0.
    #[test]
    fn clear_piled(rt: HostRuntime) {
        let mut bytes = [1; 27];
        let _ = clear_in_pile(Strip { bytes: &mut bytes }, 2);
        for (at, byte) in bytes.iter().enumerate() {
            assert_eq!(rt; *byte, if at >= 12 && at < 20 { 0 } else { 1 });
        }
        clear_bytes(&mut bytes, 99);
        for (at, byte) in bytes.iter().enumerate() {
            assert_eq!(rt; *byte, if at < 24 { 0 } else { 1 });
        }
    }

    // From a board to a pile of bays on a strip, as far as both go.
    #[test]
    fn copy_piled(rt: HostRuntime) {
        let mut board = Board::new();
        assert_eq!(rt; board.put(0, -2), Ok(()));
        assert_eq!(rt; board.put(1, 300), Ok(()));
        let mut bytes = [1; 23];
        let lower = Bay {
            below: Strip { bytes: &mut bytes },
            first: 1,
            len: 9,
        };
        let mut upper = Bay {
            below: lower,
            first: 2,
            len: 9,
        };
        assert_eq!(rt; copy(&board, &mut upper), 2);
        assert_eq!(rt; upper.get(0), Ok(-2));
        assert_eq!(rt; upper.get(1), Ok(300));
        assert_eq!(rt; copy(&upper, &mut board), 2);
        let _ = upper;
        assert_eq!(rt;
            bytes,
            [
                1, 1, 1, 1, 1, 1, 1, 1, 1, 1, 1, 1, 255, 255, 255, 254, 0, 0, 1, 44, 1, 1, 1,
            ]
        );
    }
}
