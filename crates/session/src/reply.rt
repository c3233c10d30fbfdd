// The answers to lines, and their texts.
ghost use Rattle.std.specs.Prelude.{◌≡◌, ◌-◌, map, Some};
ghost use Rattle.zones.specs.Numbers.{line_of, number_of, refusal_number};
ghost use Rattle.session.specs.Replies.{report_text, shown};

use std::fmt;
use zones::{CardRefusal, Done, ZoneReport};

// What a line is answered with. Its text is what a program writes.
#[derive(Debug, Drop)]
pub enum Reply {
    // to a line that is no command
    Unknown,
    // of a call that may do work on the flash
    Work(Result<Done, CardRefusal>),
    // of a report, with the zones that it shows
    Zones(Result<Vec<ZoneReport>, CardRefusal>),
}

// The number that is printed for a refusal, from 1 on. A line alone prints it, so it is no conversion of the type.
fn code(refusal: CardRefusal) -> usize
    ensures { result ≡ refusal_number refusal - 10 }
{
    usize::from(refusal) - 10
}

// What a report answers, with the list that it was to fill.
#[derive(Clone, Copy, Debug)]
pub struct ReportText<'a> {
    pub answer: Result<(), CardRefusal>,
    pub zones: &'a [ZoneReport],
}

impl<'a> fmt::Display for ReportText<'a> {
    ghost output = { λ report. Some (report_text (number_of report.answer, map line_of report.zones.now)) };

    fn fmt<W: fmt::Write>(&self, f: &mut fmt::Formatter<W>) -> fmt::Result {
        if let Err(refusal) = self.answer {
            return write!(f, "{}", code(refusal));
        }
        write!(f, "0")?;
        for zone in self.zones {
            write!(f, " {}/{}", usize::from(zone.state), zone.pointer)?;
        }
        Ok(())
    }
}

impl fmt::Display for Reply {
    ghost output = { λ reply. Some (shown reply) };

    fn fmt<W: fmt::Write>(&self, f: &mut fmt::Formatter<W>) -> fmt::Result {
        match self {
            Reply::Unknown => write!(f, "?"),
            Reply::Work(Ok(done)) => {
                write!(f, "0 {} {} {}", done.programmed, done.copied, done.erased)
            }
            Reply::Work(Err(refusal)) => write!(f, "{} 0 0 0", code(*refusal)),
            Reply::Zones(Ok(zones)) => {
                let text = ReportText {
                    answer: Ok(()),
                    zones: zones.as_slice(),
                };
                write!(f, "{text}")
            }
            Reply::Zones(Err(refusal)) => write!(f, "{}", code(*refusal)),
        }
    }
}
