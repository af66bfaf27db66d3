//! A part of a fill in one number.

ghost use Rattle.std.specs.Prelude.{◌≡◌};
ghost use Rattle.md_book.specs.Suits.{IsPart};
ghost use Rattle.md_report_replies.specs.Rooms.{part_number, part_in};

use md_book::Part;

// The factor between the caller and the line in a name.
const NAME_LINES: u64 = 0x1_0000_0000;

// The factor between the caller and the line, and between the line and the quantity, in a number.
const NUMBER_LINES: u64 = 0x10_0000;

/// The number of a part, whose caller, line and quantity are in range.
pub(crate) fn part_number(part: &Part) -> u64
    requires { IsPart part.now }
    ensures { result ≡ part_number part.now }
{
    let caller = part.name / NAME_LINES;
    let line = part.name % NAME_LINES;
    (caller * NUMBER_LINES + line) * NUMBER_LINES + u64::from(part.taken)
}

/// The part that a number is.
pub fn part_in(number: u64) -> Part
    ensures { result ≡ part_in number }
{
    let caller = number / (NUMBER_LINES * NUMBER_LINES);
    let line = number / NUMBER_LINES % NUMBER_LINES;
    Part {
        name: caller * NAME_LINES + line,
        taken: (number % NUMBER_LINES) as u32,
    }
}
