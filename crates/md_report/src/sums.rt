//! Sums: what lines placed, cancelled and filled, and what is left open.

ghost use Rattle.std.specs.Prelude.{◌≡◌, ◌≤◌, ◌<◌, ◌*◌, ◌^◌, length};
ghost use Rattle.md_orders.specs.Scripts.{list_of};
ghost use Rattle.md_report.specs.Report.{value_at};
ghost use Rattle.md_report.specs.Summary.{quantity_placed, quantity_cancelled, quantity_filled};
ghost use Rattle.md_report.specs.Summary.{line_totals, both_totals, AreAtMost, script_totals};
ghost use Rattle.md_report.specs.Summary.{all_totals, open_at_of};

use md_book::{BookReply, Command, DEPTHS, MAPS, MAX_PRICE, Side};
use md_history::Contents;
use md_orders::Scripts;
use md_report_replies::Replies;

/// What lines placed, cancelled and filled in all.
#[derive(Clone, Copy)]
pub(crate) struct Totals {
    pub(crate) placed: u128,
    pub(crate) cancelled: u128,
    pub(crate) filled: u128,
}

impl Totals {
    // Sums of a million numbers of 32 bits, of 2^32 callers at most, are far below 2^128.
    fn add(&mut self, more: Totals)
        requires before { AreAtMost (2 ^ 96) self.old }
        requires more { AreAtMost (2 ^ 64) more }
        ensures { self.new ≡ both_totals self.old more }
    {
        self.placed += more.placed;
        self.cancelled += more.cancelled;
        self.filled += more.filled;
    }
}

const NOTHING: Totals = Totals {
    placed: 0,
    cancelled: 0,
    filled: 0,
};

fn quantity_placed(command: Option<Command>) -> u32
    ensures { result ≡ quantity_placed command }
{
    match command {
        Some(Command::Place { quantity, .. }) => quantity,
        _ => 0,
    }
}

fn quantity_cancelled(reply: &Option<BookReply>) -> u32
    ensures { result ≡ quantity_cancelled reply.now }
{
    match reply {
        Some(BookReply::Cancelled(left)) => *left,
        _ => 0,
    }
}

fn quantity_filled(reply: &Option<BookReply>) -> u32
    ensures { result ≡ quantity_filled reply.now }
{
    match reply {
        Some(BookReply::Filled { taken, .. }) => *taken,
        _ => 0,
    }
}

fn line_totals(scripts: &Scripts, replies: &Replies, caller: u32, line: u32) -> Totals
    ensures totals { result ≡ line_totals scripts.now replies.now.replies caller line }
    ensures small { AreAtMost (2 ^ 32) result }
{
    let reply = replies.get(caller, line);
    Totals {
        placed: u128::from(quantity_placed(scripts.command(caller, line))),
        cancelled: u128::from(quantity_cancelled(&reply)),
        filled: u128::from(quantity_filled(&reply)),
    }
}

fn script_totals(scripts: &Scripts, replies: &Replies, caller: u32) -> Totals
    ensures totals { result ≡ script_totals scripts.now replies.now.replies caller }
    ensures small { AreAtMost (2 ^ 64) result }
{
    let mut all = NOTHING;
    for before in 0..scripts.len(caller) {
        all.add(line_totals(scripts, replies, caller, before + 1));
    }
    all
}

/// What the lines of scripts placed, cancelled and filled in all.
pub(crate) fn all_totals(scripts: &Scripts, replies: &Replies) -> Totals
    ensures { result ≡ all_totals scripts.now replies.now.replies }
{
    let mut all = NOTHING;
    for before in 0..scripts.callers() {
        all.add(script_totals(scripts, replies, before + 1));
    }
    all
}

/// The value of a key, or 0 if it has none.
pub(crate) fn sum_at(contents: &Contents, map: u32, key: u64) -> u64
    requires { map < length contents.now.maps }
    ensures { result ≡ value_at contents.now map key }
{
    contents.get(map, key).unwrap_or(0)
}

/// What is left open at the levels of a side.
pub(crate) fn open_at(contents: &Contents, side: Side) -> u128
    requires { MAPS ≤ length contents.now.maps }
    ensures left { result ≡ open_at_of side contents.now }
    ensures small { result ≤ MAX_PRICE * 2 ^ 64 }
{
    let mut left: u128 = 0;
    for before in 0..MAX_PRICE {
        let level = u64::from(side.level(before + 1));
        left += u128::from(sum_at(contents, DEPTHS, level));
    }
    left
}
