// Drives a card over a chip in memory: one line of standard input is one call, and its answer is one line of output.
#![tactic(auto)]

use chips::bare::BareChip;
use chips::record::BlockRecord;
use flash::Shape;
use session::answer;
use std::io;
use std::io::{BufRead, BufReader};
use zones::Card;

fn main(rt: HostRuntime) -> io::Result<()> {
    let heap = rt.alloc();
    // 2 banks of 6 blocks of 2 pages
    let mut bytes = vec![in heap; 0xFFu8; 49_152]?;
    let mut records = vec![in heap; BlockRecord::blank(3); 12]?;
    let chip = BareChip::new(
        Shape::new(2, 6, 2),
        bytes.as_mut_slice(),
        records.as_mut_slice(),
    );
    let mut card = Card::new(chip);
    for line in BufReader::new(heap, rt.stdin())?.split(heap, b'\n') {
        let text = answer(heap, &mut card, line?.as_slice())?;
        println!(rt; "{text}")?;
    }
    Ok(())
}
