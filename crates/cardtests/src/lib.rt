// Runs of the card over a bare chip, and over a stack of layers.
// Helpers of a few lines stand in each crate of tests: shared, they would be a library, with contracts of its own.
// A table of cases and the loop over it stand together, so that a failed line names its table.
#![tactic(auto)]

#[cfg(test)]
mod tests {
    use chips::bare::BareChip;
    use chips::image::CardImage;
    use chips::record::BlockRecord;
    use flash::{BlockAddress, Shape};
    use layers::pair::Pair;
    use layers::replacer::Replacer;
    use layers::whitener::Whitener;
    use std::alloc::{AllocError, Global};
    use zones::{Card, CardRefusal, Done, State, ZoneReport};

    // A line that no card reports.
    const UNTOUCHED: ZoneReport = ZoneReport {
        state: State::Threaded,
        start: 1,
        pointer: 1,
    };

    fn empty_at(start: usize) -> ZoneReport {
        ZoneReport {
            state: State::Empty,
            start,
            pointer: start,
        }
    }

    // What forming answers on a new chip of one page to a block, over so many records, of which the last has so many
    // standing pages.
    fn formed(
        heap: Global,
        (banks, blocks, records): (usize, usize, usize),
        last: u8,
        limit: usize,
        width: usize,
    ) -> Result<Result<Done, CardRefusal>, AllocError> {
        let mut bytes = vec![in heap; 0u8; records.saturating_mul(2048)]?;
        let mut records = vec![in heap; BlockRecord::blank(3); records]?;
        if let Some(record) = records.last_mut() {
            record.standing = last;
        }
        let shape = Shape::new(banks, blocks, 1);
        let chip = BareChip::new(shape, bytes.as_mut_slice(), records.as_mut_slice());
        Ok(Card::new(chip).form(limit, width))
    }

    #[test]
    fn forms(rt: HostRuntime) {
        for (chip, limit, width) in [
            ((2, 5, 10), 2, 2),
            ((1, 5, 5), 4, 1),
            ((16, 4, 64), 1, 1),
            ((16, 5, 80), 4, 16),
            ((12, 5, 60), 1, 4),
            ((8, 2, 16), 1, 8),
        ] {
            assert_eq!(rt;
                formed(rt.alloc(), chip, 0, limit, width),
                Ok(Ok(Done::default()))
            );
        }
    }

    // A limit of 0 or above 4; a width that is none, or does not divide the banks; no banks; too few blocks; too many groups.
    #[test]
    fn refuses_shapes(rt: HostRuntime) {
        for (chip, limit, width) in [
            ((2, 5, 10), 0, 2),
            ((2, 5, 10), 5, 2),
            ((2, 5, 10), usize::MAX, 2),
            ((12, 5, 60), 1, 0),
            ((12, 5, 60), 1, 3),
            ((12, 5, 60), 1, 8),
            ((2, 5, 10), 1, 16),
            ((2, 5, 10), 1, 32),
            ((17, 1, 17), 1, 1),
            ((2, 5, 9), 1, 1),
            ((2, 4, 8), 4, 2),
            ((16, 5, 80), 1, 1),
        ] {
            assert_eq!(rt;
                formed(rt.alloc(), chip, 0, limit, width),
                Ok(Err(CardRefusal::Shape))
            );
        }
    }

    // A page that stands is told after a shape that does not fit.
    #[test]
    fn refuses_standing_pages(rt: HostRuntime) {
        assert_eq!(rt;
            formed(rt.alloc(), (2, 5, 10), 1, 2, 2),
            Ok(Err(CardRefusal::Printed))
        );
        assert_eq!(rt;
            formed(rt.alloc(), (16, 4, 64), 1, 1, 1),
            Ok(Err(CardRefusal::Printed))
        );
        assert_eq!(rt;
            formed(rt.alloc(), (2, 5, 10), 1, 5, 2),
            Ok(Err(CardRefusal::Shape))
        );
    }

    // Every block of every bank is asked, the first ones too.
    #[test]
    fn refuses_a_standing_first_block(rt: HostRuntime) {
        for first in [0, 5] {
            let mut bytes = [0u8; 20_480];
            let mut records = [BlockRecord::blank(3); 10];
            records[first].standing = 1;
            let chip = BareChip::new(Shape::new(2, 5, 1), &mut bytes, &mut records);
            assert_eq!(rt; Card::new(chip).form(2, 2), Err(CardRefusal::Printed));
        }
    }

    #[test]
    fn reports(rt: HostRuntime) {
        let mut bytes = [0u8; 49_152];
        let mut records = [BlockRecord::blank(3); 12];
        let shape = Shape::new(2, 6, 2);
        let mut card = Card::new(BareChip::new(shape, &mut bytes, &mut records));
        let mut list = [UNTOUCHED; 4];
        assert_eq!(rt; card.report(0, &mut list), Err(CardRefusal::Unformed));
        assert_eq!(rt; card.form(5, 2), Err(CardRefusal::Shape));
        assert_eq!(rt; card.report(0, &mut list[0..0]), Err(CardRefusal::Unformed));
        assert_eq!(rt; card.form(2, 2), Ok(Done::default()));
        assert_eq!(rt; card.form(5, 2), Err(CardRefusal::Formed));
        assert_eq!(rt; card.report(1, &mut list), Err(CardRefusal::Range));
        assert_eq!(rt; card.report(usize::MAX, &mut list), Err(CardRefusal::Range));
        assert_eq!(rt; card.report(5, &mut list[0..0]), Err(CardRefusal::Range));
        assert_eq!(rt; card.report(4, &mut list[0..0]), Ok(()));
        assert_eq!(rt; list, [UNTOUCHED; 4]);
        assert_eq!(rt; card.report(2, &mut list[0..2]), Ok(()));
        assert_eq!(rt; list, [empty_at(32), empty_at(48), UNTOUCHED, UNTOUCHED]);
        assert_eq!(rt; card.report(0, &mut list), Ok(()));
        assert_eq!(rt;
            list,
            [empty_at(0), empty_at(16), empty_at(32), empty_at(48)]
        );
    }

    // Over a whitener over a replacer over a pair of a bare chip and an image the card is the same as over a bare chip.
    #[test]
    fn forms_over_a_stack(rt: HostRuntime) {
        let one_bank = Shape::new(1, 8, 2);
        let mut bytes = [0u8; 32_768];
        let mut records = [BlockRecord::blank(3); 8];
        let mut image = [0u8; 32_838];
        assert!(rt; CardImage::format(one_bank, 3, &mut image));
        let chip = BareChip::new(one_bank, &mut bytes, &mut records);
        let pair = Pair::new(chip, CardImage::open(&mut image));
        let stack = Whitener::new(Replacer::new(
            pair,
            2,
            &[BlockAddress::new(0, 2), BlockAddress::new(1, 6)],
        ));
        let mut card = Card::new(stack);
        let mut list = [UNTOUCHED; 4];
        assert_eq!(rt; card.form(2, 2), Ok(Done::default()));
        assert_eq!(rt; card.report(0, &mut list), Ok(()));
        assert_eq!(rt;
            list,
            [empty_at(0), empty_at(16), empty_at(32), empty_at(48)]
        );
    }
}
