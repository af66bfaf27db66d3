//! The search for an order of whole lines that explains all replies and the book at the end.

use crate::books::{Book, level_of};
use md_book::{BookReply, Command};
use md_history::Contents;
use md_orders::Scripts;
use md_report_replies::Replies;
use std::alloc::{AllocError, Global};

/// A line that was played, and the reply that its caller got.
#[derive(Clone, Copy, Debug, PartialEq, Eq)]
pub struct Told {
    pub command: Command,
    pub reply: BookReply,
}

/// The orders that explain the replies and the book at the end.
#[derive(Debug, PartialEq, Eq, Drop)]
pub struct Orders {
    /// How many there are, at most `u64::MAX`.
    pub count: u64,
    /// One of them: whose line is the next, from the first to the last. Empty if there is none.
    pub one: Vec<u32>,
    /// How many stages were looked at to find them.
    pub stages: u64,
}

// What orders of some first lines of each caller lead to, if the replies are those that were given.
#[derive(Drop)]
struct Stage {
    // How many lines of each caller there are.
    played: Vec<usize>,
    // The book that they leave.
    book: Book,
    // How many of these orders leave it.
    count: u64,
    // One of them.
    one: Vec<u32>,
}

// The lines of a caller with their replies. `None` if one has no reply.
fn lines_told_to(
    alloc: Global,
    scripts: &Scripts,
    replies: &Replies,
    caller: u32,
) -> Result<Option<Vec<Told>>, AllocError> {
    let mut lines = Vec::new(alloc);
    for before in 0..scripts.len(caller) {
        let command = scripts.command(caller, before + 1);
        let reply = replies.get(caller, before + 1);
        let (Some(command), Some(reply)) = (command, reply) else {
            return Ok(None);
        };
        lines.push(Told { command, reply })?;
    }
    Ok(Some(lines))
}

/// The lines of each caller with the replies that were given. `None` if a line has no reply.
/// `AllocError` if memory runs out.
pub fn lines_told(
    alloc: Global,
    scripts: &Scripts,
    replies: &Replies,
) -> Result<Option<Vec<Vec<Told>>>, AllocError> {
    let mut callers = Vec::new(alloc);
    for before in 0..scripts.callers() {
        let Some(lines) = lines_told_to(alloc, scripts, replies, before + 1)? else {
            return Ok(None);
        };
        callers.push(lines)?;
    }
    Ok(Some(callers))
}

// Whether an order may be placed next, if places are left so at its level in the end: the one that
// stands before it there must be placed.
fn may_be_next(book: &Book, command: &Command, closing: &Contents) -> bool {
    let Command::Place {
        name,
        side,
        price,
        ..
    } = *command
    else {
        return true;
    };
    let Some(queue) = closing.queues().get(level_of(side, price) as usize) else {
        return true;
    };
    let mut before = None;
    for other in queue.iter() {
        if *other == name {
            return before.is_none_or(|placed| book.has(placed));
        }
        before = Some(*other);
    }
    true
}

// The book after a line, if its reply is the one that was given.
fn book_after(book: &Book, told: &Told) -> Result<Option<Book>, AllocError> {
    let mut after = book.clone()?;
    if after.play(&told.command)? != told.reply {
        return Ok(None);
    }
    Ok(Some(after))
}

// The stage after one more line of a caller, which leaves this book.
fn with_line(stage: &Stage, caller: u32, book: Book) -> Result<Stage, AllocError> {
    let mut played = stage.played.clone()?;
    if let Some(counted) = played.get_mut((caller as usize).saturating_sub(1)) {
        *counted = counted.saturating_add(1);
    }
    let mut one = stage.one.clone()?;
    one.push(caller)?;
    Ok(Stage {
        played,
        book,
        count: stage.count,
        one,
    })
}

// The next line of a caller.
fn next_line<'a>(stage: &Stage, caller: u32, lines: &'a [Told]) -> Option<&'a Told> {
    let number = (caller as usize).saturating_sub(1);
    lines.get(stage.played.get(number).copied().unwrap_or(0))
}

// The stage after the next line of a caller, if there is one and its reply is the one that was
// given.
fn after_line(
    stage: &Stage,
    caller: u32,
    lines: &[Told],
    closing: &Contents,
) -> Result<Option<Stage>, AllocError> {
    let Some(told) = next_line(stage, caller, lines) else {
        return Ok(None);
    };
    if !may_be_next(&stage.book, &told.command, closing) {
        return Ok(None);
    }
    match book_after(&stage.book, told)? {
        Some(book) => Ok(Some(with_line(stage, caller, book)?)),
        None => Ok(None),
    }
}

// Adds a stage to others. Orders that come to the same are one stage: what can follow is the same.
fn add_stage(stages: &mut Vec<Stage>, stage: Stage) -> Result<(), AllocError> {
    for other in stages.iter_mut() {
        if other.played == stage.played && other.book == stage.book {
            other.count = other.count.saturating_add(stage.count);
            return Ok(());
        }
    }
    stages.push(stage)?;
    Ok(())
}

// The stages after one more line.
fn next_stages(
    alloc: Global,
    stages: &[Stage],
    callers: &[Vec<Told>],
    closing: &Contents,
) -> Result<Vec<Stage>, AllocError> {
    let mut next = Vec::new(alloc);
    for stage in stages {
        let mut caller: u32 = 0;
        for lines in callers {
            caller = caller.saturating_add(1);
            if let Some(after) = after_line(stage, caller, lines, closing)? {
                add_stage(&mut next, after)?;
            }
        }
    }
    Ok(next)
}

// The stage before the first line.
fn first_stage(alloc: Global, callers: &[Vec<Told>]) -> Result<Vec<Stage>, AllocError> {
    let mut played = Vec::new(alloc);
    for _ in callers {
        played.push(0)?;
    }
    let mut stages = Vec::new(alloc);
    stages.push(Stage {
        played,
        book: Book::empty(alloc),
        count: 1,
        one: Vec::new(alloc),
    })?;
    Ok(stages)
}

// The stages after all lines, and how many stages were looked at.
fn last_stages(
    alloc: Global,
    callers: &[Vec<Told>],
    closing: &Contents,
) -> Result<(Vec<Stage>, u64), AllocError> {
    let mut stages = first_stage(alloc, callers)?;
    let mut looked: u64 = 0;
    for lines in callers {
        for _ in lines.iter() {
            stages = next_stages(alloc, &stages, callers, closing)?;
            looked = looked.saturating_add(stages.len() as u64);
        }
    }
    Ok((stages, looked))
}

/// Looks for orders of all lines, each caller's in its own order, that explain the replies and the
/// book at the end: if the lines are played one after another on an empty book, they have these
/// replies and leave these contents. If `count` is 0, no order explains them.
///
/// The search adds one line after another. A stage is how many lines of each caller were played,
/// and the book that they leave. Each stage is kept once, with the number of orders that lead to
/// it. The time is quadratic in the number of stages, which is small only for a few callers with a
/// few lines.
///
/// `AllocError` if memory runs out.
pub fn orders_that_explain(
    alloc: Global,
    callers: &[Vec<Told>],
    closing: &Contents,
) -> Result<Orders, AllocError> {
    let (stages, looked) = last_stages(alloc, callers, closing)?;
    let mut orders = Orders {
        count: 0,
        one: Vec::new(alloc),
        stages: looked,
    };
    for stage in stages {
        if stage.book.is_in(alloc, closing)? {
            orders.count = orders.count.saturating_add(stage.count);
            orders.one = stage.one;
        }
    }
    Ok(orders)
}
