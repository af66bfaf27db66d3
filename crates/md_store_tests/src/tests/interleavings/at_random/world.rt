//! What the transactions of a run share: the draws, and what is kept of them.

ghost use Rattle.std.specs.Prelude.{◌≡◌, ◌<◌, None};

use super::super::Way;
use super::history::History;
use md_history::{Op, Stop};
use std::alloc::Global;
use std::process::Abort;

// How many lanes the store has, and its maps, queues and keys.
pub(super) const LANES: u32 = 4;

pub(super) const MAPS: u64 = 2;

pub(super) const QUEUES: u64 = 2;

pub(super) const KEYS: u64 = 12;

// How transactions ended that didn't become ready, and how many were left ready.
#[derive(Clone, Copy)]
pub(super) struct Ends {
    // An operation, or the step that makes it ready, met a conflict.
    pub(super) conflict: usize,
    // An operation met a limit.
    pub(super) limit: usize,
    // It was stopped, although nothing stood against it.
    pub(super) stopped: usize,
    // It was left before it was ready.
    pub(super) left: usize,
    // It was left ready.
    pub(super) left_ready: usize,
}

// A transaction under way: the lane of its pass, its place in the history, and why it stopped.
#[derive(Clone, Copy)]
pub(super) struct Course {
    pub(super) lane: u32,
    pub(super) place: usize,
    pub(super) stop: Option<Stop>,
}

#[derive(Drop)]
pub(super) struct World {
    state: u64,
    made: u64,
    pub(super) history: History,
    pub(super) ends: Ends,
    // For each lane the place in the history of the one that it left ready.
    undecided: [Option<usize>; 4],
}

impl World {
    pub(super) fn new(alloc: Global, seed: u64) -> World {
        World {
            state: seed,
            made: 0,
            history: History::new(alloc),
            ends: Ends {
                conflict: 0,
                limit: 0,
                stopped: 0,
                left: 0,
                left_ready: 0,
            },
            undecided: [None; 4],
        }
    }

    // A number below `sides`. The generator is Knuth's for MMIX.
    pub(super) fn draw(&mut self, sides: u64) -> u64
        requires { 0 < sides }
        ensures { result < sides }
    {
        self.state = self
            .state
            .wrapping_mul(6_364_136_223_846_793_005)
            .wrapping_add(1_442_695_040_888_963_407);
        (self.state >> 33) % sides
    }

    // The next operation. Each value is a new one.
    pub(super) fn op(&mut self) -> Op {
        self.made = self.made.wrapping_add(1);
        let value = self.made;
        let key = self.draw(KEYS);
        let map = self.draw(MAPS) as u32;
        let queue = self.draw(QUEUES) as u32;
        match self.draw(23) {
            0..=4 => Op::Get { map, key },
            5..=8 => Op::Insert { map, key, value },
            9..=11 => Op::Remove { map, key },
            12..=14 => Op::Put { map, key, value },
            15..=17 => Op::Enqueue { queue, value },
            18..=20 => Op::Dequeue { queue },
            21 => Op::Front { queue },
            _ => Op::Line {
                queue,
                n: 1 + self.draw(12) as u8,
            },
        }
    }

    // The course of a new transaction of a pass with this lane.
    pub(super) fn course<R: Abort>(&mut self, rt: &R, lane: u32) -> Course
        ensures { result.stop ≡ None }
    {
        let place = self.history.enter(rt);
        Course {
            lane,
            place,
            stop: None,
        }
    }

    // How a transaction is ended. If it has a stop, it isn't made ready.
    pub(super) fn way(&mut self, stop: Option<Stop>) -> Way {
        if stop.is_some() || self.draw(8) == 0 {
            return if self.draw(2) == 0 {
                Way::Leave
            } else {
                Way::Stop
            };
        }
        if self.draw(3) == 0 {
            Way::LeaveReady
        } else {
            Way::Commit
        }
    }

    // Keeps a transaction that was ended: whether it was committed, or left ready.
    pub(super) fn keep<R: Abort>(&mut self, rt: &R, course: Course, way: Way, held: bool) {
        match way {
            Way::Leave => add_one(&mut self.ends.left),
            Way::Stop => self.ends.count_stop(course.stop),
            Way::LeaveReady => {
                if held {
                    self.keep_ready(rt, course);
                }
            }
            Way::Commit => {
                self.history.is_ready(rt, course.place);
                self.history.decide(course.place, held);
            }
        }
    }

    // Keeps a transaction that was left ready.
    fn keep_ready<R: Abort>(&mut self, rt: &R, course: Course) {
        self.history.is_ready(rt, course.place);
        if let Some(kept) = self.undecided.get_mut(course.lane as usize) {
            *kept = Some(course.place);
        }
        add_one(&mut self.ends.left_ready);
    }

    // Takes the place of the one that a pass with this lane left ready.
    pub(super) fn take_undecided(&mut self, lane: u32) -> Option<usize> {
        self.undecided.get_mut(lane as usize)?.take()
    }

    // How many operations were made.
    pub(super) fn made(&self) -> u64 {
        self.made
    }
}

impl Ends {
    // Counts a transaction that was stopped, by its stop.
    fn count_stop(&mut self, stop: Option<Stop>) {
        match stop {
            Some(Stop::Conflict(_)) => add_one(&mut self.conflict),
            Some(_) => add_one(&mut self.limit),
            None => add_one(&mut self.stopped),
        }
    }
}

// Counts one more.
fn add_one(count: &mut usize) {
    *count = count.wrapping_add(1);
}
