// What may happen to one line of a sheet.
use crate::outcome::WORKED;
use std::alloc::{AllocError, Global};
use std::fmt;

#[derive(Clone, Copy)]
pub enum Damage {
    Missing,
    Twice,
    AfterEmpty,
    Space,
    CarriageReturn,
    Shorter,
    Joined,
    CutBeforeFeed,
    CutShorter,
    Last,
}

impl Damage {
    pub const ALL: [Damage; 10] = [
        Damage::Missing,
        Damage::Twice,
        Damage::AfterEmpty,
        Damage::Space,
        Damage::CarriageReturn,
        Damage::Shorter,
        Damage::Joined,
        Damage::CutBeforeFeed,
        Damage::CutShorter,
        Damage::Last,
    ];

    // Whether the sheet goes on after the damaged line.
    fn goes_on(self) -> bool {
        !matches!(
            self,
            Damage::CutBeforeFeed | Damage::CutShorter | Damage::Last
        )
    }

    // What stands in the place of a line, which comes without its line feed.
    fn in_place_of(self, heap: Global, line: &str) -> Result<String, AllocError> {
        let shorter = line.get(..line.len().saturating_sub(1)).unwrap_or(line);
        match self {
            Damage::Missing => Ok(String::new(heap)),
            Damage::Twice => format!(in heap; "{line}\n{line}\n"),
            Damage::AfterEmpty => format!(in heap; "\n{line}\n"),
            Damage::Space => format!(in heap; "{line} \n"),
            Damage::CarriageReturn => format!(in heap; "{line}\r\n"),
            Damage::Shorter => format!(in heap; "{shorter}\n"),
            Damage::Joined | Damage::CutBeforeFeed => format!(in heap; "{line}"),
            Damage::CutShorter => format!(in heap; "{shorter}"),
            Damage::Last => format!(in heap; "{line}\n"),
        }
    }

    // The worked sheet with one line of it damaged, by its number from 1.
    pub fn at(self, heap: Global, damaged: usize) -> Result<String, AllocError> {
        let mut sheet = String::new(heap);
        for (line, number) in WORKED.lines().zip(1usize..) {
            if number == damaged {
                sheet.push_str(self.in_place_of(heap, line)?.as_str())?;
            } else if number < damaged || self.goes_on() {
                sheet.push_str(line)?;
                sheet.push('\n')?;
            }
        }
        Ok(sheet)
    }
}

impl fmt::Display for Damage {
    fn fmt<W: fmt::Write>(&self, f: &mut fmt::Formatter<W>) -> fmt::Result {
        f.write_str(match self {
            Damage::Missing => "missing",
            Damage::Twice => "twice",
            Damage::AfterEmpty => "after an empty line",
            Damage::Space => "with a space at its end",
            Damage::CarriageReturn => "with a carriage return",
            Damage::Shorter => "without its last byte",
            Damage::Joined => "running into the next",
            Damage::CutBeforeFeed => "without its line feed, the last",
            Damage::CutShorter => "without its last byte, the last",
            Damage::Last => "the last",
        })
    }
}
