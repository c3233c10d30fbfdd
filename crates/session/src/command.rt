// The commands of a session, one to a line. They are a closed set, so a `match` tells them apart and runs them.
ghost use Rattle.std.specs.Prelude.{◌≡◌};
ghost use Rattle.std.specs.Result.{result_ok};
ghost use Rattle.session.specs.Commands.{command_of, numbers};
ghost use Rattle.session.specs.Lines.{words_left};

use crate::number::number;
use crate::words::Words;

#[derive(Clone, Copy, PartialEq, Eq, Debug)]
pub enum Command {
    Form { limit: usize, width: usize },
    Report { first: usize, count: usize },
}

// A line that writes no command.
#[derive(Clone, Copy, PartialEq, Eq, Debug)]
pub struct NoCommand;

// The numbers that are left of a line, where there are just so many and nothing else.
fn numbers<const N: usize>(mut words: Words) -> Option<[usize; N]>
    ensures { result ≡ numbers N (words_left words.entry) }
{
    let mut found = [0; N];
    for n in found.iter_mut() {
        *n = number(words.next()?)?;
    }
    words.next().is_none().then_some(found)
}

// The command that a line writes: a letter, and then its numbers.
impl<'a> TryFrom<&'a [u8]> for Command {
    type Error = NoCommand;

    ghost try_from_gives = { λ line r. result_ok r ≡ command_of line.now };

    fn try_from(line: &'a [u8]) -> Result<Self, NoCommand> {
        let mut words = Words::new(line);
        match words.next() {
            Some(b"F") => {
                let [limit, width] = numbers::<2>(words).ok_or(NoCommand)?;
                Ok(Command::Form { limit, width })
            }
            // at most four zones may be asked
            Some(b"Q") => {
                let [first, count] = numbers::<2>(words).ok_or(NoCommand)?;
                if count > 4 {
                    return Err(NoCommand);
                }
                Ok(Command::Report { first, count })
            }
            _ => Err(NoCommand),
        }
    }
}
