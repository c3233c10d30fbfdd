// Runs of the card image, on small shapes.
// Helpers of a few lines stand in each crate of tests: shared, they would be a library, with contracts of its own.
// A table of cases and the loop over it stand together, so that a failed line names its table.
#![tactic(auto)]

#[cfg(test)]
mod tests {
    use chips::image::CardImage;
    use flash::{BlockAddress, Flash, NO_BANKS, Refusal, Shape};
    use std::alloc::{AllocError, Global};
    use std::test::Fail;

    // A byte that no blank image has where these tests look.
    const OLD: u8 = 7;

    // What formatting answers over so many bytes of those that there are, and whether it left every byte of them: two facts,
    // of which each is asked.
    fn formatted(heap: Global, shape: Shape, length: usize) -> Result<(bool, bool), AllocError> {
        let mut room = vec![in heap; OLD; 133_520]?;
        let bytes = room.as_mut_slice();
        let lent = length.min(bytes.len());
        let answer = CardImage::format(shape, 3, &mut bytes[..lent]);
        Ok((answer, bytes.iter().all(|byte| *byte == OLD)))
    }

    // The least shape, and the most of each number.
    #[test]
    fn sizes_that_fit(rt: HostRuntime) {
        for (it, length) in [
            (Shape::new(1, 1, 1), 2060),
            (Shape::new(16, 1, 1), 32_870),
            (Shape::new(1, 64, 1), 131_462),
            (Shape::new(1, 1, 64), 131_210),
            (Shape::new(2, 3, 2), 24_630),
        ] {
            assert_eq!(rt; formatted(rt.alloc(), it, length), Ok((true, false)));
        }
    }

    // Each reason alone to be refused: a number that is 0 or too large, and a byte too few or too many.
    #[test]
    fn sizes_that_do_not_fit(rt: HostRuntime) {
        for (it, length) in [
            (Shape::new(0, 1, 1), 6),
            (Shape::new(1, 0, 1), 6),
            (Shape::new(1, 1, 0), 10),
            (Shape::new(17, 1, 1), 34_924),
            (Shape::new(1, 65, 1), 133_516),
            (Shape::new(1, 1, 65), 133_260),
            (Shape::new(1, 1, 1), 2059),
            (Shape::new(1, 1, 1), 2061),
            (Shape::new(2, 2, 2), 16_421),
            (Shape::new(2, 2, 2), 16_423),
            (Shape::new(1, 1, 1), 0),
        ] {
            assert_eq!(rt; formatted(rt.alloc(), it, length), Ok((false, true)));
        }
    }

    // Every byte of the least image, which opens.
    #[test]
    fn least(rt: HostRuntime) {
        let mut bytes = [OLD; 2060];
        assert!(rt; CardImage::format(Shape::new(1, 1, 1), 500, &mut bytes));
        assert!(rt; bytes.starts_with(&[0x43, 0x49, 0x01, 1, 1, 1, 0x42, 0x4B, 0xF4, 0x01]));
        assert!(rt; bytes[10..].iter().all(|byte| *byte == 0xFF));
        assert!(rt; CardImage::open(&mut bytes).shape() == Shape::new(1, 1, 1));
    }

    // Every byte of an image whose numbers differ: 2 banks of 3 blocks of 4 pages. A block has 8,204 bytes.
    #[test]
    fn every_block(rt: HostRuntime) {
        let mut bytes = [OLD; 49_230];
        assert!(rt; CardImage::format(Shape::new(2, 3, 4), 0x1234, &mut bytes));
        assert!(rt; bytes.starts_with(&[0x43, 0x49, 0x01, 2, 3, 4]));
        for block in bytes[6..].chunks_exact(8204) {
            assert!(rt; block.starts_with(&[0x42, 0x4B, 0x34, 0x12]));
            assert!(rt; block[4..].iter().all(|byte| *byte == 0xFF));
        }
    }

    // An image of 2 banks of 2 blocks of 2 pages, in which the first page of the second block stands. A block has 4,104 bytes.
    fn sample() -> [u8; 16_422] {
        let mut bytes = [OLD; 16_422];
        if CardImage::format(Shape::new(2, 2, 2), 3, &mut bytes) {
            let mut image = CardImage::open(&mut bytes);
            let _ = image.program(BlockAddress::new(0, 1), 0, &[OLD; 2048]);
        }
        bytes
    }

    // What the sample shows with two bytes of it replaced; none where they are past its end.
    fn damaged(place: usize, low: u8, high: u8) -> Option<Shape> {
        let mut bytes = sample();
        let at = bytes.get_mut(place..place.checked_add(2)?)?;
        at.copy_from_slice(&[low, high]);
        Some(CardImage::open(&mut bytes).shape())
    }

    // Each kind of damage alone: a wrong mark of the header, of a block or of a page; a number out of range, or one that
    // asks for another length; and a standing page after a blank one.
    #[test]
    fn damage(rt: HostRuntime) {
        for (place, low, high) in [
            (0, 0x42, 0x49),
            (0, 0x43, 0x48),
            (2, 0x02, 2),
            (2, 0x00, 2),
            (3, 0, 2),
            (3, 1, 2),
            (3, 17, 2),
            (3, 2, 0),
            (3, 2, 65),
            (4, 2, 0),
            (4, 2, 65),
            (4, 2, 255),
            (6, 0x41, 0x4B),
            (6, 0x42, 0x4A),
            (6 + 4104, 0x4B, 0x42),
            (6 + 3 * 4104, 0xFF, 0xFF),
            (10, 0xFF, 0xFE),
            (10, 0xFE, 0xFF),
            (10 + 4104, 0x50, 0x46),
            (10 + 4104, 0x47, 0x50),
            (10 + 4104, 0x00, 0x00),
            (10 + 2050, 0x50, 0x47),
            (10 + 3 * 4104 + 2050, 0x50, 0x47),
        ] {
            assert_eq!(rt; damaged(place, low, high), Some(NO_BANKS));
        }
    }

    // The same places with what belongs there, and what may be there: other lives, another page that stands in turn,
    // a page made blank, data of any bytes.
    #[test]
    fn no_damage(rt: HostRuntime) {
        for (place, low, high) in [
            (0, 0x43, 0x49),
            (2, 0x01, 2),
            (3, 2, 2),
            (6, 0x42, 0x4B),
            (8, 0xFF, 0xFF),
            (8, 0x00, 0x00),
            (10, 0xFF, 0xFF),
            (10, 0x50, 0x47),
            (10 + 4104, 0xFF, 0xFF),
            (10 + 4104 + 2050, 0x50, 0x47),
            (12, 0x50, 0x47),
            (16_420, 0, 0),
        ] {
            assert_eq!(rt; damaged(place, low, high), Some(Shape::new(2, 2, 2)));
        }
    }

    // What the first bytes of the sample show, with more after them if it is asked for more.
    fn cut(heap: Global, length: usize) -> Result<Shape, AllocError> {
        let mut bytes = vec![in heap; 0xFFu8; length]?;
        let n = length.min(16_422);
        bytes[..n].copy_from_slice(&sample()[..n]);
        Ok(CardImage::open(bytes.as_mut_slice()).shape())
    }

    // An image that is cut off anywhere, or goes on after its end, shows no banks.
    #[test]
    fn lengths(rt: HostRuntime) {
        assert_eq!(rt; cut(rt.alloc(), 16_422), Ok(Shape::new(2, 2, 2)));
        for length in [0, 1, 5, 6, 7, 4110, 16_421, 16_423] {
            assert_eq!(rt; cut(rt.alloc(), length), Ok(NO_BANKS));
        }
    }

    // An image that shows no banks refuses every call, and is left as it is.
    #[test]
    fn no_banks(rt: HostRuntime) {
        let mut bytes = [OLD; 2060];
        let mut buffer = [OLD; 512];
        let at = BlockAddress::new(0, 0);
        let mut image = CardImage::open(&mut bytes);
        assert_eq!(rt; image.standing(at), None);
        assert_eq!(rt; image.lives(at), None);
        assert_eq!(rt; image.program(at, 0, &[0; 2048]), Err(Refusal::Outside));
        assert_eq!(rt; image.read(at, 0, 0, &mut buffer), Err(Refusal::Outside));
        assert_eq!(rt; image.erase(at), Err(Refusal::Outside));
        assert!(rt; bytes.iter().all(|byte| *byte == OLD));
    }

    // Calls on one block of the sample, each refusal before the ones that come after it.
    #[test]
    fn calls(rt: HostRuntime) {
        let mut bytes = sample();
        let mut buffer = [0u8; 512];
        let at = BlockAddress::new(0, 1);
        let mut image = CardImage::open(&mut bytes);
        assert_eq!(rt; image.standing(at), Some(1));
        assert_eq!(rt; image.program(at, 2, &[1; 2047]), Err(Refusal::Outside));
        assert_eq!(rt; image.program(at, 0, &[1; 2047]), Err(Refusal::Length));
        assert_eq!(rt; image.program(at, 0, &[1; 2048]), Err(Refusal::Order));
        assert_eq!(rt; image.read(at, 1, 4, &mut buffer), Err(Refusal::Outside));
        assert_eq!(rt; image.read(at, 1, 3, &mut buffer), Err(Refusal::Blank));
        assert_eq!(rt; image.program(at, 1, &[1; 2048]), Ok(()));
        assert_eq!(rt; image.read(at, 1, 3, &mut buffer), Ok(()));
        assert_eq!(rt; buffer, [1; 512]);
        for lives in [2, 1, 0] {
            assert_eq!(rt; image.erase(at), Ok(()));
            assert_eq!(rt; image.standing(at), Some(0));
            assert_eq!(rt; image.lives(at), Some(lives));
        }
        assert_eq!(rt; image.erase(at), Err(Refusal::Worn));
        assert_eq!(rt; image.lives(BlockAddress::new(0, 0)), Some(3));
        // The erased block's pages are FF again, with their marks.
        assert!(rt;
            bytes[6 + 4104 + 4..6 + 2 * 4104]
                .iter()
                .all(|byte| *byte == 0xFF)
        );
    }

    // The largest shape: 16 banks of 64 blocks of 64 pages.
    #[test]
    fn largest(rt: HostRuntime) -> Result<(), Fail> {
        let most = Shape::new(16, 64, 64);
        let last = BlockAddress::new(15, 63);
        let mut bytes = vec![in rt.alloc(); OLD; 134_352_902]?;
        assert!(rt; CardImage::format(most, 65_535, bytes.as_mut_slice()));
        let mut image = CardImage::open(bytes.as_mut_slice());
        assert_eq!(rt; image.shape(), most);
        assert_eq!(rt; image.lives(last), Some(65_535));
        assert_eq!(rt; image.program(last, 0, &[OLD; 2048]), Ok(()));
        assert_eq!(rt; image.standing(last), Some(1));
        assert_eq!(rt; image.erase(last), Ok(()));
        assert_eq!(rt; image.lives(last), Some(65_534));
        Ok(())
    }
}
