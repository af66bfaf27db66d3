//! Small order files that are made from a number.

ghost use Rattle.std.specs.Prelude.{◌≤◌, ◌<◌};

use std::alloc::{AllocError, Global};

// Draws from a linear congruential generator (Knuth, MMIX), its high bits.
#[derive(Clone, Copy, Debug)]
struct Draws {
    state: u64,
}

impl Draws {
    fn from(number: u64) -> Draws {
        let mut draws = Draws {
            state: number.wrapping_mul(0x9E37_79B9_7F4A_7C15),
        };
        let _ = draws.below(1);
        draws
    }

    // A number below another.
    fn below(&mut self, end: u32) -> u32
        requires { 1 ≤ end }
        ensures { result < end }
    {
        let next = self.state.wrapping_mul(6_364_136_223_846_793_005);
        self.state = next.wrapping_add(1_442_695_040_888_963_407);
        ((self.state >> 33) % u64::from(end)) as u32
    }

    // A number from 1 to another.
    fn up_to(&mut self, last: u32) -> u32
        requires low { 1 ≤ last }
        requires high { last < 1000 }
        ensures { (1 ≤ result) × (result ≤ last) }
    {
        self.below(last) + 1
    }
}

/// How many callers the made file of a number has: 2 to 4.
pub fn callers_of(number: u64) -> u32
    ensures { (2 ≤ result) × (result ≤ 4) }
{
    (number % 3) as u32 + 2
}

// The word of a line that places or fills.
fn word_of(kind: u32, second: bool) -> &'static str {
    match kind {
        0..=7 => "P",
        12..=13 if second => "K",
        _ => "F",
    }
}

// Writes a line of a caller. Few accounts and levels, so that callers collide.
fn write_line(
    text: &mut String,
    draws: &mut Draws,
    caller: u32,
    callers: u32,
    second: bool,
) -> Result<(), AllocError>
    requires { (1 ≤ callers) × (callers ≤ 4) }
{
    let kind = draws.below(20);
    let account = draws.up_to(2);
    let side = if draws.below(4) == 0 { "B" } else { "S" };
    let price = if draws.below(4) == 0 { 501 } else { 500 };
    let quantity = draws.up_to(3);
    let (other, line) = (draws.up_to(callers), draws.up_to(6));
    match kind {
        0..=13 => {
            let word = word_of(kind, second);
            writeln!(text, "{caller},{word},{account},{side},{price},{quantity}")
        }
        14..=16 => writeln!(text, "{caller},C,{other},{line}"),
        17..=18 => writeln!(text, "{caller},D,{side},{price}"),
        _ => writeln!(text, "{caller},A,{account}"),
    }
}

/// The order file of a number, which may be any. It has `callers_of(number)` callers. A caller has
/// 2 to 6 lines, on two accounts, two prices and quantities from 1 to 3, and cancels orders of all
/// callers. About half of the files are of version 2, which may have kills. `AllocError` if memory
/// runs out.
pub fn made_file(alloc: Global, number: u64) -> Result<String, AllocError> {
    let mut draws = Draws::from(number);
    let mut text = String::new(alloc);
    let callers = callers_of(number);
    let second = draws.below(2) == 0;
    if second {
        text.push_str("medley,2\n")?;
    }
    for before in 0..callers {
        for _ in 0..draws.below(5) + 2 {
            write_line(&mut text, &mut draws, before + 1, callers, second)?;
        }
    }
    Ok(text)
}
