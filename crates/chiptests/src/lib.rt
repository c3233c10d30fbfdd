// Runs of the bare chip, on small shapes.
// Helpers of a few lines stand in each crate of tests: shared, they would be a library, with contracts of its own.
// A table of cases and the loop over it stand together, so that a failed line names its table.
#![tactic(auto)]

#[cfg(test)]
mod tests {
    use chips::bare::BareChip;
    use chips::record::BlockRecord;
    use flash::{BlockAddress, Flash, NO_BANKS, Refusal, Shape};
    use std::alloc::{AllocError, Global};
    use std::array;

    // A page whose quarters are of the bytes `first`, `first + 1`, `first + 2` and `first + 3`.
    fn page(first: u8) -> [u8; 2048] {
        array::from_fn(|i| first.wrapping_add((i / 512 % 4) as u8))
    }

    // What a chip of this shape shows over so many bytes and records, the last of which counts `last` standing pages.
    fn shown(
        heap: Global,
        (shape, bytes, records, last): (Shape, usize, usize, u8),
    ) -> Result<Shape, AllocError> {
        let mut bytes = vec![in heap; 0u8; bytes]?;
        let mut records = vec![in heap; BlockRecord::blank(2); records]?;
        if let Some(record) = records.last_mut() {
            *record = BlockRecord {
                standing: last,
                lives: 0,
            };
        }
        Ok(BareChip::new(shape, bytes.as_mut_slice(), records.as_mut_slice()).shape())
    }

    // The least shape, the most of each number, and blocks that are full.
    #[test]
    fn shapes_that_fit(rt: HostRuntime) {
        for case in [
            (Shape::new(1, 1, 1), 2048, 1, 0),
            (Shape::new(1, 1, 1), 2048, 1, 1),
            (Shape::new(16, 1, 1), 32_768, 16, 1),
            (Shape::new(1, 64, 1), 131_072, 64, 1),
            (Shape::new(1, 1, 64), 131_072, 1, 64),
            (Shape::new(2, 2, 2), 16_384, 4, 2),
        ] {
            assert_eq!(rt; shown(rt.alloc(), case), Ok(case.0));
        }
    }

    // Each reason alone to show no banks: a number that is 0 or too large, a byte or a record too few or too many,
    // and a record that counts more standing pages than a block has.
    #[test]
    fn shapes_that_do_not_fit(rt: HostRuntime) {
        for case in [
            (Shape::new(0, 1, 1), 0, 0, 0),
            (Shape::new(1, 0, 1), 0, 0, 0),
            (Shape::new(1, 1, 0), 0, 1, 0),
            (Shape::new(17, 1, 1), 34_816, 17, 0),
            (Shape::new(1, 65, 1), 133_120, 65, 0),
            (Shape::new(1, 1, 65), 133_120, 1, 0),
            (Shape::new(2, 2, 2), 16_383, 4, 0),
            (Shape::new(2, 2, 2), 16_385, 4, 0),
            (Shape::new(2, 2, 2), 16_384, 3, 0),
            (Shape::new(2, 2, 2), 16_384, 5, 0),
            (Shape::new(2, 2, 2), 16_384, 4, 3),
        ] {
            assert_eq!(rt; shown(rt.alloc(), case), Ok(NO_BANKS));
        }
    }

    // A chip that shows no banks has no block, and refuses every call.
    #[test]
    fn no_banks(rt: HostRuntime) {
        let mut bytes = page(0);
        let mut records = [BlockRecord::blank(2); 2];
        let mut buffer = [0u8; 512];
        let at = BlockAddress::new(0, 0);
        let mut chip = BareChip::new(Shape::new(1, 1, 1), &mut bytes, &mut records);
        assert_eq!(rt; chip.standing(at), None);
        assert_eq!(rt; chip.lives(at), None);
        assert_eq!(rt; chip.program(at, 0, &page(1)), Err(Refusal::Outside));
        assert_eq!(rt; chip.read(at, 0, 0, &mut buffer), Err(Refusal::Outside));
        assert_eq!(rt; chip.erase(at), Err(Refusal::Outside));
    }

    // Programs in turn, on 2 banks of 2 blocks of 2 pages: the first refusal that applies is the answer.
    #[test]
    fn programs(rt: HostRuntime) {
        let mut bytes = [0u8; 16_384];
        let mut records = [BlockRecord::blank(2); 4];
        let mut chip = BareChip::new(Shape::new(2, 2, 2), &mut bytes, &mut records);
        let long = [9u8; 2049];
        for (bank, block, page, length, answer) in [
            (2, 0, 0, 2048, Err(Refusal::Outside)),
            (0, 2, 0, 2048, Err(Refusal::Outside)),
            (0, 0, 2, 2048, Err(Refusal::Outside)),
            (0, 0, 2, 2047, Err(Refusal::Outside)),
            (0, 0, 1, 2047, Err(Refusal::Length)),
            (0, 0, 0, 2049, Err(Refusal::Length)),
            (0, 0, 1, 2048, Err(Refusal::Order)),
            (0, 0, 0, 2048, Ok(())),
            (0, 0, 0, 2048, Err(Refusal::Order)),
            (0, 0, 1, 2048, Ok(())),
            (0, 0, 1, 2048, Err(Refusal::Order)),
            (1, 0, 0, 2048, Ok(())),
        ] {
            let length: usize = length;
            let bytes = &long[..length.min(2049)];
            assert_eq!(rt;
                chip.program(BlockAddress::new(bank, block), page, bytes),
                answer
            );
        }
        for (bank, block, standing) in [
            (0, 0, Some(2)),
            (0, 1, Some(0)),
            (1, 0, Some(1)),
            (1, 1, Some(0)),
            (2, 0, None),
            (0, 2, None),
        ] {
            assert_eq!(rt; chip.standing(BlockAddress::new(bank, block)), standing);
        }
    }

    // Reads of each quarter, on 1 bank of 2 blocks of 2 pages. A refused read leaves the buffer.
    #[test]
    fn reads(rt: HostRuntime) {
        let mut bytes = [0u8; 8192];
        let mut records = [BlockRecord::blank(2); 2];
        let mut chip = BareChip::new(Shape::new(1, 2, 2), &mut bytes, &mut records);
        assert_eq!(rt; chip.program(BlockAddress::new(0, 1), 0, &page(10)), Ok(()));
        assert_eq!(rt; chip.program(BlockAddress::new(0, 1), 1, &page(20)), Ok(()));
        assert_eq!(rt; chip.program(BlockAddress::new(0, 0), 0, &page(30)), Ok(()));
        for (block, page, quarter, length, answer, byte) in [
            (1, 0, 0, 512, Ok(()), 10),
            (1, 0, 3, 512, Ok(()), 13),
            (1, 1, 1, 512, Ok(()), 21),
            (0, 0, 2, 512, Ok(()), 32),
            (2, 0, 0, 512, Err(Refusal::Outside), 99),
            (0, 2, 0, 512, Err(Refusal::Outside), 99),
            (0, 0, 4, 511, Err(Refusal::Outside), 99),
            (0, 0, 0, 511, Err(Refusal::Length), 99),
            (0, 1, 0, 513, Err(Refusal::Length), 99),
            (0, 1, 0, 512, Err(Refusal::Blank), 99),
        ] {
            let length: usize = length;
            let mut room = [99u8; 513];
            let buffer = &mut room[..length.min(513)];
            assert_eq!(rt;
                chip.read(BlockAddress::new(0, block), page, quarter, buffer),
                answer
            );
            assert!(rt; room[0] == byte && room[510] == byte && room[512] == 99);
        }
    }

    // An erase empties one block and takes one of its lives, until none is left. The bytes stay.
    #[test]
    fn erases(rt: HostRuntime) {
        let mut bytes = [0u8; 4096];
        let mut records = [BlockRecord::blank(2); 2];
        let mut chip = BareChip::new(Shape::new(1, 2, 1), &mut bytes, &mut records);
        let first = BlockAddress::new(0, 0);
        let second = BlockAddress::new(0, 1);
        assert_eq!(rt; chip.program(first, 0, &page(40)), Ok(()));
        assert_eq!(rt; chip.program(second, 0, &page(50)), Ok(()));
        for (block, answer, lives) in [
            (2, Err(Refusal::Outside), None),
            (1, Ok(()), Some(1)),
            (1, Ok(()), Some(0)),
            (1, Err(Refusal::Worn), Some(0)),
        ] {
            assert_eq!(rt; chip.erase(BlockAddress::new(0, block)), answer);
            assert_eq!(rt; chip.lives(BlockAddress::new(0, block)), lives);
        }
        assert!(rt; chip.lives(first) == Some(2) && chip.standing(first) == Some(1));
        assert_eq!(rt; chip.standing(second), Some(0));
        assert_eq!(rt; chip.program(first, 0, &page(60)), Err(Refusal::Order));
        assert!(rt; bytes[0] == 40 && bytes[2048] == 50 && bytes[4095] == 53);
        let worked = BlockRecord {
            standing: 1,
            lives: 2,
        };
        assert_eq!(rt; records, [worked, BlockRecord::blank(0)]);
    }

    // Where a page lies: block 0 of bank 1 is the fourth block where a bank has three. More pages may stand than a bank has blocks.
    #[test]
    fn places(rt: HostRuntime) {
        let mut bytes = [0u8; 12_288];
        let mut records = [BlockRecord::blank(2); 6];
        let mut chip = BareChip::new(Shape::new(2, 3, 1), &mut bytes, &mut records);
        assert_eq!(rt; chip.program(BlockAddress::new(1, 0), 0, &page(7)), Ok(()));
        assert!(rt; bytes[2048] == 0 && bytes[6144] == 7 && bytes[8191] == 10 && bytes[8192] == 0);
        let mut bytes = [0u8; 4096];
        let mut records = [BlockRecord::blank(2)];
        let at = BlockAddress::new(0, 0);
        let mut chip = BareChip::new(Shape::new(1, 1, 2), &mut bytes, &mut records);
        assert_eq!(rt; chip.program(at, 0, &page(1)), Ok(()));
        assert_eq!(rt; chip.program(at, 1, &page(2)), Ok(()));
        assert_eq!(rt; chip.standing(at), Some(2));
    }

    // The least chip, through a whole life.
    #[test]
    fn least(rt: HostRuntime) {
        let mut bytes = [0u8; 2048];
        let mut records = [BlockRecord::blank(1)];
        let mut buffer = [0u8; 512];
        let at = BlockAddress::new(0, 0);
        let mut chip = BareChip::new(Shape::new(1, 1, 1), &mut bytes, &mut records);
        assert_eq!(rt; chip.read(at, 0, 0, &mut buffer), Err(Refusal::Blank));
        assert_eq!(rt; chip.program(at, 0, &page(1)), Ok(()));
        assert_eq!(rt; chip.erase(at), Ok(()));
        assert_eq!(rt; chip.read(at, 0, 0, &mut buffer), Err(Refusal::Blank));
        assert_eq!(rt; chip.program(at, 0, &page(5)), Ok(()));
        assert_eq!(rt; chip.read(at, 0, 3, &mut buffer), Ok(()));
        assert!(rt; buffer[0] == 8 && buffer[511] == 8);
        assert_eq!(rt; chip.erase(at), Err(Refusal::Worn));
        assert_eq!(rt; chip.standing(at), Some(1));
    }
}
