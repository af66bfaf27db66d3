//! Rows of a day: a command, the sign `|`, and the reply to it.
//!
//! A command is written as in an order file, with spaces in place of commas and without its caller.
//! An order has its name, CALLER:LINE, and the number of places stands behind `F` and `K`. A reply
//! is written as in a report.

use md_book::{BookReply, Command, MAX_PARTS, Part, Side, order_name};

// As many numbers as a row has at most: two, and three for each part of a fill.
const NUMBERS: usize = 3 * MAX_PARTS + 2;

// The numbers of a text, in order, and zeros behind them.
fn numbers_in(text: &str) -> [u32; NUMBERS] {
    let mut numbers = [0u32; NUMBERS];
    let mut place = 0usize;
    let mut inside = false;
    for byte in text.as_bytes() {
        if byte.is_ascii_digit() {
            if place < NUMBERS {
                let digit = u32::from(byte.wrapping_sub(b'0'));
                numbers[place] = numbers[place].wrapping_mul(10).wrapping_add(digit);
            }
            inside = true;
        } else if inside {
            place = place.saturating_add(1);
            inside = false;
        }
    }
    numbers
}

fn command_in(text: &str) -> Option<Command> {
    let n = numbers_in(text);
    let side = if text.contains('S') {
        Side::Sell
    } else {
        Side::Buy
    };
    let command = match text.as_bytes().first()? {
        b'P' => Command::Place {
            name: order_name(n[0], n[1]),
            account: n[2],
            side,
            price: n[3],
            quantity: n[4],
        },
        b'C' => Command::Cancel {
            name: order_name(n[0], n[1]),
        },
        b'F' => Command::Fill {
            account: n[1],
            side,
            price: n[2],
            quantity: n[3],
            places: n[0].min(255) as u8,
        },
        b'K' => Command::Kill {
            account: n[1],
            side,
            price: n[2],
            quantity: n[3],
            places: n[0].min(255) as u8,
        },
        b'D' => Command::Depth { side, price: n[0] },
        b'A' => Command::Account { account: n[0] },
        _ => return None,
    };
    Some(command)
}

// What was taken, what remains, and of each part the caller, the line and the quantity.
fn fill_reply_of(n: &[u32; NUMBERS]) -> BookReply {
    let mut parts = [Part { name: 0, taken: 0 }; MAX_PARTS];
    let mut count = 0;
    for place in 0..MAX_PARTS {
        let taken = n[3 * place + 4];
        if taken > 0 {
            count = place as u8 + 1;
            parts[place] = Part {
                name: order_name(n[3 * place + 2], n[3 * place + 3]),
                taken,
            };
        }
    }
    BookReply::Filled {
        taken: n[0],
        rest: n[1],
        count,
        parts,
    }
}

fn reply_in(text: &str) -> Option<BookReply> {
    let n = numbers_in(text);
    let reply = match text.as_bytes().first()? {
        b'p' => BookReply::Placed,
        b'c' => BookReply::Cancelled(n[0]),
        b'g' => BookReply::Gone,
        b'k' => BookReply::Killed,
        b'f' => fill_reply_of(&n),
        b'd' => BookReply::Depth(u64::from(n[0])),
        b'b' => BookReply::Account {
            bought: u64::from(n[0]),
            sold: u64::from(n[1]),
        },
        _ => return None,
    };
    Some(reply)
}

/// The command and the reply of a row.
pub(super) fn step_in(row: &str) -> Option<(Command, BookReply)> {
    let (command, reply) = row.split_once('|')?;
    Some((command_in(command.trim())?, reply_in(reply.trim())?))
}
