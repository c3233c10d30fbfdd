// Runs of the layers, alone over bare chips and all together over a pair of a bare chip and a card image.
// Helpers of a few lines stand in each crate of tests: shared, they would be a library, with contracts of its own.
// A table of cases and the loop over it stand together, so that a failed line names its table.
#![tactic(auto)]

#[cfg(test)]
mod tests {
    use chips::bare::BareChip;
    use chips::image::CardImage;
    use chips::record::BlockRecord;
    use flash::{BlockAddress, Flash, NO_BANKS, Refusal, Shape};
    use layers::pair::Pair;
    use layers::replacer::Replacer;
    use layers::whitener::Whitener;
    use std::alloc::{AllocError, Global};
    use std::array;

    // A byte that tells where it belongs: one number for each bank, block, page and quarter.
    fn print(at: BlockAddress, page: usize, quarter: usize) -> u8 {
        ((at.bank % 4 * 64 + at.block % 8 * 8 + page % 2 * 4 + quarter % 4) % 256) as u8
    }

    // A page of such bytes.
    fn printed(at: BlockAddress, page: usize) -> [u8; 2048] {
        array::from_fn(|i| print(at, page, i / 512))
    }

    // How many blocks a flash of this shape has in all banks.
    fn blocks(shape: Shape) -> usize {
        shape.banks.saturating_mul(shape.blocks)
    }

    // The page bytes and the records of a blank chip of this shape.
    fn memory(heap: Global, shape: Shape) -> Result<(Vec<u8>, Vec<BlockRecord>), AllocError> {
        let pages = blocks(shape).saturating_mul(shape.pages);
        let bytes = vec![in heap; 0u8; pages.saturating_mul(2048)]?;
        let records = vec![in heap; BlockRecord::blank(3); blocks(shape)]?;
        Ok((bytes, records))
    }

    // What a pair of bare chips of these shapes shows, each over all the memory that it needs.
    fn paired(heap: Global, first: Shape, second: Shape) -> Result<Shape, AllocError> {
        let (mut bytes, mut records) = memory(heap, first)?;
        let (mut more_bytes, mut more_records) = memory(heap, second)?;
        let chip = BareChip::new(first, bytes.as_mut_slice(), records.as_mut_slice());
        let more = BareChip::new(
            second,
            more_bytes.as_mut_slice(),
            more_records.as_mut_slice(),
        );
        Ok(Pair::new(chip, more).shape())
    }

    // Sixteen banks together are shown, and seventeen are not; nor are two chips with other blocks or pages,
    // or a chip with banks and one with none.
    #[test]
    fn pairs(rt: HostRuntime) {
        for (first, second, shown) in [
            (
                Shape::new(1, 2, 2),
                Shape::new(3, 2, 2),
                Shape::new(4, 2, 2),
            ),
            (
                Shape::new(8, 1, 1),
                Shape::new(8, 1, 1),
                Shape::new(16, 1, 1),
            ),
            (Shape::new(8, 1, 1), Shape::new(9, 1, 1), NO_BANKS),
            (Shape::new(1, 2, 2), Shape::new(1, 3, 2), NO_BANKS),
            (Shape::new(1, 2, 2), Shape::new(1, 2, 3), NO_BANKS),
            (Shape::new(1, 2, 2), Shape::new(0, 2, 2), NO_BANKS),
            (Shape::new(0, 2, 2), Shape::new(1, 2, 2), NO_BANKS),
        ] {
            assert_eq!(rt; paired(rt.alloc(), first, second), Ok(shown));
        }
    }

    // What a replacer shows over a bare chip of this shape.
    fn replaced(
        heap: Global,
        shape: Shape,
        spares: usize,
        bad: &[BlockAddress],
    ) -> Result<Shape, AllocError> {
        let (mut bytes, mut records) = memory(heap, shape)?;
        let chip = BareChip::new(shape, bytes.as_mut_slice(), records.as_mut_slice());
        Ok(Replacer::new(chip, spares, bad).shape())
    }

    // Each reason alone to show no banks: too many spares or no block beside them, a pair outside or repeated,
    // too few good spares in one bank.
    #[test]
    fn replacers(rt: HostRuntime) {
        let below = Shape::new(2, 8, 1);
        assert_eq!(rt;
            replaced(rt.alloc(), below, 0, &[]),
            Ok(Shape::new(2, 8, 1))
        );
        assert_eq!(rt;
            replaced(rt.alloc(), below, 7, &[]),
            Ok(Shape::new(2, 1, 1))
        );
        assert_eq!(rt; replaced(rt.alloc(), below, 8, &[]), Ok(NO_BANKS));
        assert_eq!(rt; replaced(rt.alloc(), below, 9, &[]), Ok(NO_BANKS));
        assert_eq!(rt;
            replaced(
                rt.alloc(),
                below,
                2,
                &[BlockAddress::new(0, 2), BlockAddress::new(0, 6)]
            ),
            Ok(Shape::new(2, 6, 1))
        );
        assert_eq!(rt;
            replaced(
                rt.alloc(),
                below,
                2,
                &[
                    BlockAddress::new(0, 2),
                    BlockAddress::new(0, 6),
                    BlockAddress::new(1, 7),
                    BlockAddress::new(1, 0)
                ]
            ),
            Ok(Shape::new(2, 6, 1))
        );
        assert_eq!(rt;
            replaced(rt.alloc(), below, 2, &[BlockAddress::new(2, 0)]),
            Ok(NO_BANKS)
        );
        assert_eq!(rt;
            replaced(rt.alloc(), below, 2, &[BlockAddress::new(0, 8)]),
            Ok(NO_BANKS)
        );
        assert_eq!(rt;
            replaced(
                rt.alloc(),
                below,
                2,
                &[
                    BlockAddress::new(0, 2),
                    BlockAddress::new(1, 2),
                    BlockAddress::new(0, 2)
                ]
            ),
            Ok(NO_BANKS)
        );
        assert_eq!(rt;
            replaced(
                rt.alloc(),
                below,
                2,
                &[
                    BlockAddress::new(0, 2),
                    BlockAddress::new(0, 3),
                    BlockAddress::new(0, 4)
                ]
            ),
            Ok(NO_BANKS)
        );
        assert_eq!(rt;
            replaced(
                rt.alloc(),
                below,
                2,
                &[
                    BlockAddress::new(1, 2),
                    BlockAddress::new(1, 6),
                    BlockAddress::new(1, 3)
                ]
            ),
            Ok(NO_BANKS)
        );
        assert_eq!(rt;
            replaced(rt.alloc(), below, 0, &[BlockAddress::new(1, 7)]),
            Ok(NO_BANKS)
        );
    }

    // Different blocks: the first ones of 16 banks, then the second ones, and so on.
    fn spread(i: usize) -> BlockAddress {
        BlockAddress::new(i % 16, i / 16)
    }

    // Eight spares at most, and 32 bad blocks at most.
    #[test]
    fn limits(rt: HostRuntime) {
        let below = Shape::new(16, 16, 1);
        let most: [BlockAddress; 32] = array::from_fn(spread);
        let more: [BlockAddress; 33] = array::from_fn(spread);
        assert_eq!(rt;
            replaced(rt.alloc(), below, 8, &[]),
            Ok(Shape::new(16, 8, 1))
        );
        assert_eq!(rt; replaced(rt.alloc(), below, 9, &[]), Ok(NO_BANKS));
        assert_eq!(rt;
            replaced(rt.alloc(), below, 3, &most),
            Ok(Shape::new(16, 13, 1))
        );
        assert_eq!(rt; replaced(rt.alloc(), below, 3, &more), Ok(NO_BANKS));
    }

    // A byte that is stored by its position, page, block and bank, and read back as it was.
    #[test]
    fn whitener(rt: HostRuntime) {
        let mut bytes = [0u8; 49_152];
        let mut records = [BlockRecord::blank(3); 6];
        let mut buffer = [0u8; 512];
        let chip = BareChip::new(Shape::new(2, 3, 4), &mut bytes, &mut records);
        let mut flash = Whitener::new(chip);
        for page in 0..4 {
            assert_eq!(rt;
                flash.program(BlockAddress::new(1, 2), page, &[0xFF; 2048]),
                Ok(())
            );
        }
        assert_eq!(rt;
            flash.read(BlockAddress::new(1, 2), 3, 0, &mut buffer),
            Ok(())
        );
        assert_eq!(rt; buffer[4], 0xFF);
        // A refused call writes to no buffer.
        assert_eq!(rt;
            flash.read(BlockAddress::new(1, 1), 0, 0, &mut buffer),
            Err(Refusal::Blank)
        );
        assert_eq!(rt; buffer[4], 0xFF);
        assert_eq!(rt;
            flash.program(BlockAddress::new(2, 0), 0, &[0; 2048]),
            Err(Refusal::Outside)
        );
        assert_eq!(rt;
            flash.program(BlockAddress::new(1, 2), 4, &[0; 2047]),
            Err(Refusal::Outside)
        );
        assert_eq!(rt;
            flash.program(BlockAddress::new(1, 1), 1, &[0; 2047]),
            Err(Refusal::Length)
        );
        assert_eq!(rt;
            flash.program(BlockAddress::new(1, 1), 1, &[0; 2048]),
            Err(Refusal::Order)
        );
        assert_eq!(rt; bytes[23 * 2048 + 4], 0xB7);
    }

    // Whether a quarter reads back as it was printed.
    fn reads_back<F: Flash>(
        flash: &F,
        at: BlockAddress,
        page: usize,
        quarter: usize,
    ) -> Result<bool, Refusal> {
        let mut buffer = [0u8; 512];
        flash.read(at, page, quarter, &mut buffer)?;
        Ok(buffer.iter().all(|byte| *byte == print(at, page, quarter)))
    }

    // Visits all pages of a flash of 3 banks, 6 blocks and 2 pages.
    fn each_page<V: FnMut(BlockAddress, usize) -> Result<(), Refusal>>(
        mut visit: V,
    ) -> Result<(), Refusal>
        requires { V.IsAlwaysCallable visit }
    {
        for bank in 0..3 {
            for block in 0..6 {
                for page in 0..2 {
                    visit(BlockAddress::new(bank, block), page)?;
                }
            }
        }
        Ok(())
    }

    // Programs all pages of such a flash, and tells whether all read back.
    fn fill<F: Flash>(flash: &mut F) -> Result<bool, Refusal> {
        each_page(|at, page| flash.program(at, page, &printed(at, page)))?;
        let mut same = true;
        each_page(|at, page| {
            for quarter in 0..4 {
                same &= reads_back(flash, at, page, quarter)?;
            }
            Ok(())
        })?;
        Ok(same)
    }

    // A whitener over a replacer over a pair of a bare chip and an image, written and read through, and erased in a block
    // that is found elsewhere: whether all that is read is as it should be.
    fn drive(
        bytes: &mut [u8],
        records: &mut [BlockRecord],
        image: &mut [u8],
    ) -> Result<bool, Refusal> {
        let chip = BareChip::new(Shape::new(1, 8, 2), bytes, records);
        let pair = Pair::new(chip, CardImage::open(image));
        let bad = [
            BlockAddress::new(0, 2),
            BlockAddress::new(0, 6),
            BlockAddress::new(2, 0),
            BlockAddress::new(2, 5),
        ];
        let mut stack = Whitener::new(Replacer::new(pair, 2, &bad));
        let at = BlockAddress::new(2, 0);
        let filled = fill(&mut stack)?;
        let before = (stack.standing(at), stack.lives(at));
        stack.erase(at)?;
        let after = (stack.standing(at), stack.lives(at));
        Ok(
            filled
                && stack.shape() == Shape::new(3, 6, 2)
                && before == (Some(2), Some(4))
                && after == (Some(0), Some(3))
                && stack.standing(BlockAddress::new(2, 6)) == None
                && stack.lives(BlockAddress::new(3, 0)) == None
                && stack.erase(BlockAddress::new(2, 6)) == Err(Refusal::Outside),
        )
    }

    // Where a stack puts what goes through it: the bad blocks are never touched, a replaced block lies in its spare
    // under the mask of the number that is shown, and the image holds its banks for a later opening.
    #[test]
    fn stack(rt: HostRuntime) {
        let mut bytes = [0u8; 32_768];
        let mut records = [BlockRecord::blank(3); 8];
        let mut image = [0u8; 65_670];
        assert!(rt; CardImage::format(Shape::new(2, 8, 2), 4, &mut image));
        assert_eq!(rt; drive(&mut bytes, &mut records, &mut image), Ok(true));
        assert_eq!(rt;
            records.map(|record| record.standing),
            [2, 2, 0, 2, 2, 2, 0, 2]
        );
        // position 3 of page 1 of the shown block 2 of bank 0, which is found at 7
        assert_eq!(rt; bytes[15 * 2048 + 3], 20 ^ 242);
        let again = CardImage::open(&mut image);
        assert_eq!(rt; again.shape(), Shape::new(2, 8, 2));
        assert_eq!(rt;
            array::from_fn(|block| again.standing(BlockAddress::new(1, block))),
            [0, 2, 2, 2, 2, 0, 0, 2].map(Some)
        );
        assert_eq!(rt; again.lives(BlockAddress::new(1, 6)), Some(3));
        assert_eq!(rt; again.lives(BlockAddress::new(1, 7)), Some(4));
    }
}
