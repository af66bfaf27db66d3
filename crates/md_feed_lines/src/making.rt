//! Lines that are made one at a time, each when it is asked for.

ghost use Rattle.std.specs.Prelude.{◌≡◌, ◌<◌, ◌≤◌, ◌+◌, true};
ghost use Rattle.md_orders.specs.Records.{max_records};
ghost use Rattle.md_orders.specs.Maker.{maker_at};
ghost use Rattle.md_feed_lines.specs.Fed.{fed_at};

use crate::fed::FedLine;
use md_orders::{MAX_MADE_CALLERS, Maker};

/// Which line is asked for: the number from which it is made, for how many callers, and how many
/// others are made before.
#[derive(Clone, Copy)]
pub(crate) struct Wanted {
    pub(crate) number: u32,
    pub(crate) callers: u32,
    pub(crate) made: u32,
}

/// A maker, and where it stands.
#[derive(Drop)]
pub(crate) struct Making {
    number: u32,
    callers: u32,
    made: u32,
    maker: Maker,
    ghost at: { maker ≡ maker_at number callers made },
}

impl Making {
    pub(crate) fn new(number: u32, callers: u32) -> Making
        requires { (1 ≤ callers) × (callers ≤ MAX_MADE_CALLERS) }
        ensures { (result.number ≡ number) × (result.callers ≡ callers) × (result.made ≡ 0) }
    {
        Making {
            number,
            callers,
            made: 0,
            maker: Maker::new(number, callers),
        }
    }

    // Whether it comes to a line if it goes on.
    fn comes_to(&self, wanted: Wanted) -> bool
        ensures { result ≡ true → (self.now.number ≡ wanted.number)
            × (self.now.callers ≡ wanted.callers) × (self.now.made ≤ wanted.made) }
    {
        self.number == wanted.number && self.callers == wanted.callers && self.made <= wanted.made
    }

    // Makes the next line.
    fn next(&mut self) -> FedLine
        requires { self.old.made < max_records }
        ensures line { result ≡ fed_at self.old.number self.old.callers self.old.made }
        ensures made { self.new.made ≡ self.old.made + 1 }
        ensures same { (self.new.number ≡ self.old.number) × (self.new.callers ≡ self.old.callers) }
    {
        let (_, _, command) = self.maker.next();
        let line = FedLine {
            number: self.number,
            callers: self.callers,
            made: self.made,
            command,
        };
        self.made += 1;
        line
    }

    /// Makes a line. It goes on from the line that it made last, if that comes before; otherwise it
    /// begins anew.
    pub(crate) fn line(&mut self, wanted: Wanted) -> FedLine
        requires callers { (1 ≤ wanted.callers) × (wanted.callers ≤ MAX_MADE_CALLERS) }
        requires made { wanted.made < max_records }
        ensures { result ≡ fed_at wanted.number wanted.callers wanted.made }
    {
        if !self.comes_to(wanted) {
            *self = Making::new(wanted.number, wanted.callers);
        }
        let before = wanted.made - self.made;
        for passed in 0..before {
            let _ = self.next();
        }
        self.next()
    }
}
