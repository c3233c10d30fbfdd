// The card over a flash that it holds.
ghost use Rattle.std.specs.Prelude.{◌≡◌, map, OnErr};
ghost use Rattle.flatcard.specs.Calls.{form, report};
ghost use Rattle.flatcard.specs.Card.{unformed};
ghost use Rattle.zones.specs.IntactBooks.{IntactBook, intact_prop};
ghost use Rattle.zones.specs.Numbers.{answer_of, line_of, number_of};

use crate::blank::printed;
use crate::book::Book;
use crate::geometry::Geometry;
use crate::refusal::{CardRefusal, Done};
use crate::report::ZoneReport;
use flash::Flash;

#[derive(Drop)]
pub struct Card<F: Flash> {
    flash: F,
    // none before the card is formed
    book: Option<Book>,
    // the book lies on the flash as it should
    ghost intact: { IntactBook (F.Flash.memory flash) book } by { intact_prop (F.Flash.memory flash) book },
}

impl<F: Flash> Card<F> {
    ghost use Rattle.zones.specs.View.{flat_card, surveyed};

    // A card over a flash, not formed yet.
    pub fn new(flash: F) -> Self
        ensures flat { flat_card result ≡ unformed }
        ensures flash { result.flash ≡ flash }
    {
        Card { flash, book: None }
    }

    // Forms the card: at most `limit` zones open or threaded together, each striped over `width` banks. Two numbers, as a host
    // gives them: a struct of the two would be taken apart at once. That the flash
    // stays is a clause of its own, since the flat card would not tell.
    pub fn form(&mut self, limit: usize, width: usize) -> Result<Done, CardRefusal>
        ensures answer { answer_of result ≡ (form (flat_card self.old) limit width (surveyed self.old)).0 }
        ensures flat { flat_card self.new ≡ (form (flat_card self.old) limit width (surveyed self.old)).1 }
        ensures flash { self.new.flash ≡ self.old.flash }
        ensures refused { OnErr result (self.new ≡ self.old) }
    {
        if self.book.is_some() {
            return Err(CardRefusal::Formed);
        }
        let geometry = Geometry::on(&self.flash, limit, width).ok_or(CardRefusal::Shape)?;
        if printed(&self.flash) {
            return Err(CardRefusal::Printed);
        }
        self.book = Some(Book::new(geometry));
        Ok(Done::default())
    }

    // Fills the caller's list with a line for each zone from the first on.
    pub fn report(&self, first: usize, list: &mut [ZoneReport]) -> Result<(), CardRefusal>
        ensures answer { number_of result ≡ (report (flat_card self.now) first (map line_of list.old)).0 }
        ensures list { map line_of list.new ≡ (report (flat_card self.now) first (map line_of list.old)).1 }
        ensures refused { OnErr result (list.new ≡ list.old) }
    {
        let book = self.book.as_ref().ok_or(CardRefusal::Unformed)?;
        if !book.geometry.has_zones(first, list.len()) {
            return Err(CardRefusal::Range);
        }
        // By index: a proof does not follow what is written through a zip with the zones' numbers.
        for (i, line) in list.iter_mut().enumerate() {
            *line = book.line(first + i);
        }
        Ok(())
    }
}
