// A line, run on a card. The heap is handed to each function that allocates, as the library does it.
ghost use Rattle.std.specs.Prelude.{◌≡◌, replicate, IfOk, string_bytes};
ghost use Rattle.flatcard.specs.Calls.{report};
ghost use Rattle.zones.specs.View.{flat_card, surveyed};
ghost use Rattle.session.specs.Commands.{command_of};
ghost use Rattle.session.specs.Replies.{card_after, fresh_line, reply_text, report_text, shown};

use crate::command::{Command, NoCommand};
use crate::reply::Reply;
use flash::Flash;
use std::alloc::{AllocError, Global};
use zones::{Card, ZoneReport};

// Has the card report so many zones from the first on: two numbers, as a line gives them.
fn report<F: Flash>(
    heap: Global,
    card: &Card<F>,
    first: usize,
    count: usize,
) -> Result<Reply, AllocError>
    ensures { IfOk result (λ reply. shown reply ≡ report_text (report (flat_card card.now) first (replicate count fresh_line))) }
{
    let mut zones = vec![in heap; ZoneReport::default(); count]?;
    let answer = card.report(first, zones.as_mut_slice());
    Ok(Reply::Zones(answer.map(|()| zones)))
}

// Runs the command that a line writes.
fn run<F: Flash>(heap: Global, card: &mut Card<F>, line: &[u8]) -> Result<Reply, AllocError>
    ensures text { IfOk result (λ reply. shown reply ≡ reply_text (surveyed card.old) (flat_card card.old) (command_of line.now)) }
    ensures flat { flat_card card.new ≡ card_after (surveyed card.old) (flat_card card.old) (command_of line.now) }
    ensures flash { card.new.flash ≡ card.old.flash }
{
    match Command::try_from(line) {
        Err(NoCommand) => Ok(Reply::Unknown),
        Ok(Command::Form { limit, width }) => Ok(Reply::Work(card.form(limit, width))),
        Ok(Command::Report { first, count }) => report(heap, card, first, count),
    }
}

// Runs the command that a line writes, and makes the text that answers the line.
pub fn answer<F: Flash>(heap: Global, card: &mut Card<F>, line: &[u8]) -> Result<String, AllocError>
    ensures text { IfOk result (λ s. string_bytes s ≡ reply_text (surveyed card.old) (flat_card card.old) (command_of line.now)) }
    ensures flat { flat_card card.new ≡ card_after (surveyed card.old) (flat_card card.old) (command_of line.now) }
    ensures flash { card.new.flash ≡ card.old.flash }
{
    let reply = run(heap, card, line)?;
    format!(in heap; "{reply}")
}
