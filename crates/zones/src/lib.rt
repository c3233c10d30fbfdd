// The card of zones over any flash.
#![tactic(auto)]

mod blank;
mod book;
mod card;
mod geometry;
mod refusal;
mod report;
mod state;
mod zone;

pub use card::Card;
pub use refusal::{CardRefusal, Done};
pub use report::ZoneReport;
pub use state::State;
