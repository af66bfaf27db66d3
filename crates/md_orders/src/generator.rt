//! The generator of made commands: its draws, and the command that they give.

ghost use Rattle.std.specs.Prelude.{◌≡◌, ◌≤◌, ◌/◌, ◌^◌};
ghost use Rattle.md_orders.specs.Generator.{next_state, state_after_draws, draws_from};
ghost use Rattle.md_orders.specs.Generator.{made_command};

use md_book::{Command, MAX_SCRIPT_LINE, PLACES_IN_VERSION_1, Side, order_name};

/// The most callers for which scripts are made.
pub const MAX_MADE_CALLERS: u32 = 8;

const MULTIPLIER: u64 = 1_103_515_245;

const INCREMENT: u64 = 12_345;

const MODULUS: u64 = 0x8000_0000;

// A linear congruential generator, whose draws are the high bits of its states. It is the example
// of `rand` in the C standard (ISO/IEC 9899:1990, 7.10.2.2).
#[derive(Clone, Copy)]
pub(crate) struct Generator {
    pub(crate) state: u32,
}

// The draws of a command: for its kind, its account or the order that it cancels, its side, its
// price and its quantity.
#[derive(Clone, Copy)]
pub(crate) struct Draws {
    kind: u32,
    account: u32,
    side: u32,
    price: u32,
    quantity: u32,
}

impl Generator {
    // A generator that has drawn nothing from a number yet.
    pub(crate) fn new(number: u32) -> Generator
        ensures { result.state ≡ number }
    {
        Generator { state: number }
    }

    fn draw(&mut self) -> u32
        ensures state { self.new.state ≡ next_state self.old.state }
        ensures draw { result ≡ next_state self.old.state / 2 ^ 16 }
    {
        self.state = ((u64::from(self.state) * MULTIPLIER + INCREMENT) % MODULUS) as u32;
        self.state / 0x1_0000
    }

    // The five draws of the next command.
    pub(crate) fn draws(&mut self) -> Draws
        ensures state { self.new.state ≡ state_after_draws self.old.state 5 }
        ensures draws { result ≡ draws_from self.old.state }
    {
        Draws {
            kind: self.draw(),
            account: self.draw(),
            side: self.draw(),
            price: self.draw(),
            quantity: self.draw(),
        }
    }
}

// The command that draws give at a caller's line.
pub(crate) fn made_command(caller: u32, line: u32, draws: &Draws) -> Command
    requires caller { (1 ≤ caller) × (caller ≤ MAX_MADE_CALLERS) }
    requires line { (1 ≤ line) × (line ≤ MAX_SCRIPT_LINE) }
    ensures { result ≡ made_command caller line draws.now }
{
    let account = 1000 * caller + draws.account % 1000;
    let side = if draws.side % 2 == 0 {
        Side::Buy
    } else {
        Side::Sell
    };
    let price = 8 * (draws.price % 10) + caller;
    let quantity = 1 + draws.quantity % 100;
    match draws.kind % 10 {
        0 => Command::Account { account },
        1 => Command::Depth { side, price },
        2 => Command::Cancel {
            name: order_name(caller, 1 + draws.account % line),
        },
        3 | 4 => Command::Fill {
            account,
            side,
            price,
            quantity,
            places: PLACES_IN_VERSION_1,
        },
        _ => Command::Place {
            name: order_name(caller, line),
            account,
            side,
            price,
            quantity,
        },
    }
}
