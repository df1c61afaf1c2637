// What a line of the form says, before its rules are tried. Its calls stand in a module below, since they cite definitions that name it.
ghost use Rattle.std.specs.Prelude.{◌≤◌, length};

use adders::AdderList;

pub mod reading;

// The first nine adders of a line, which tell a chain of at most eight from a longer one, and its output shift.
#[derive(Clone, Copy)]
pub struct Draft {
    adders: AdderList<9>,
    shift: u8,
    ghost few: { length adders ≤ 9 },
}
