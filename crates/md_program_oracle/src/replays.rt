//! Lines that are played one after another, over the store for one thread.

ghost use Rattle.md_book.specs.Commands.{IsCommand};

use crate::search::Told;
use md_book::{BookReply, Command, LEVELS, MAPS};
use md_history::{Attempt, Contents, Engine, PlainPass, PlainStore};
use md_many::{Gate, attempt_line};
use md_orders::Scripts;
use std::alloc::{AllocError, Global};
use std::marker::Model;

/// The result of lines that were played one after another: those of each caller with their replies,
/// and the contents that they leave.
#[derive(Drop)]
pub struct Replayed {
    pub callers: Vec<Vec<Told>>,
    pub contents: Contents,
}

// A store for one thread with its pass. It has the maps and queues of a book.
#[derive(Drop)]
struct Plain {
    store: PlainStore,
    pass: PlainPass,
}

impl Model for Plain {
    ghost use Rattle.std.specs.Prelude.{◌≤◌, length};
    ghost use Rattle.md_history.specs.Plain.{IsPassOf};
    ghost use Rattle.md_book.specs.declared.maps.TheConstants.{MAPS, LEVELS};

    ghost Value = { Unit {0} };

    ghost view = { λ p. tt };

    ghost invariant = { λ p. IsPassOf p.store p.pass × (MAPS ≤ length p.store.maps)
        × (LEVELS ≤ length p.store.queues) };
}

impl Plain {
    // A store without orders.
    fn empty(alloc: Global) -> Result<Plain, AllocError> {
        let (store, pass) = PlainStore::open(Contents::empty(alloc, MAPS, LEVELS)?);
        Ok(Plain { store, pass })
    }

    // Plays a caller's line.
    fn play<G: Gate>(
        &mut self,
        caller: u32,
        line: u32,
        command: &Command,
        gate: &G,
    ) -> Result<BookReply, AllocError>
        requires { IsCommand command.now }
    {
        match attempt_line(&self.store, &mut self.pass, caller, line, command, gate) {
            Attempt::Committed(reply) => Ok(reply),
            Attempt::Stopped(_) => Err(AllocError),
        }
    }

    // What it contains in the end.
    fn contents(self) -> Result<Contents, AllocError> {
        let Plain { store, pass } = self;
        let (contents, _) = store.contents(pass)?;
        Ok(contents)
    }
}

// A list for each caller.
fn no_lines(alloc: Global, callers: u32) -> Result<Vec<Vec<Told>>, AllocError> {
    let mut lists = Vec::new(alloc);
    for _ in 0..callers {
        lists.push(Vec::new(alloc))?;
    }
    Ok(lists)
}

// Plays the next line of a caller, if it has one left.
fn play_next<G: Gate>(
    plain: &mut Plain,
    callers: &mut [Vec<Told>],
    scripts: &Scripts,
    caller: u32,
    gate: &G,
) -> Result<(), AllocError> {
    let Some(lines) = callers.get_mut((caller as usize).saturating_sub(1)) else {
        return Ok(());
    };
    let line = u32::try_from(lines.len())
        .unwrap_or(u32::MAX)
        .saturating_add(1);
    let Some(command) = scripts.command(caller, line) else {
        return Ok(());
    };
    let reply = plain.play(caller, line, &command, gate)?;
    lines.push(Told { command, reply })?;
    Ok(())
}

// Plays the next line of each caller that the order names.
fn play_each<G: Gate>(
    plain: &mut Plain,
    callers: &mut [Vec<Told>],
    scripts: &Scripts,
    order: &[u32],
    gate: &G,
) -> Result<(), AllocError> {
    for caller in order.iter().copied() {
        play_next(plain, callers, scripts, caller, gate)?;
    }
    Ok(())
}

/// Plays lines on an empty book, one after another in one thread: for each caller that the order
/// names, counted from 1, the next of its lines, if it has one left. The gate is called before and
/// after each line. `AllocError` if memory runs out.
pub fn play_in_order<G: Gate>(
    alloc: Global,
    scripts: &Scripts,
    order: &[u32],
    gate: &G,
) -> Result<Replayed, AllocError> {
    let mut plain = Plain::empty(alloc)?;
    let mut callers = no_lines(alloc, scripts.callers())?;
    play_each(&mut plain, &mut callers, scripts, order, gate)?;
    let contents = plain.contents()?;
    Ok(Replayed { callers, contents })
}
