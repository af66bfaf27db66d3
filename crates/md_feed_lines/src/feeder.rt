//! Who feeds all callers.

ghost use Rattle.std.specs.Prelude.{◌≡◌, ◌<◌, true, map, All, IfOk};
ghost use Rattle.md_feed_lines.specs.Planned.{CanBeMade};
ghost use Rattle.md_feed_lines.specs.Feeding.{IsFed, feed_of, callers_of};

use crate::channel::open_channel;
use crate::feed::{Feed, Step};
use crate::hand::Hand;
use crate::lines::FeedLines;
use crate::making::Making;
use crate::plan::Plan;
use std::alloc::{AllocError, Global};
use std::sync::atomic::{AtomicBool, Ordering};
use std::sync::{Mutex, Wait};
use std::thread;
use std::thread::Threads;

/// Makes the lines of all callers and sends each to its caller. It holds a line for each caller.
#[derive(Drop)]
pub struct Feeder {
    plan: Plan,
    feeds: Vec<Feed>,
    ghost feed_of_each: { map feed_of feeds.items ≡ callers_of plan },
}

// Sends each caller lines while there is room.
fn feed_all<R: Wait>(rt: &R, feeds: &mut Vec<Feed>) -> Step
    ensures { map feed_of feeds.new.items ≡ map feed_of feeds.old.items }
{
    let mut all = Step::Done;
    for at in 0..feeds.len() {
        let step = feeds[at].steps(rt);
        all = all.and(step);
    }
    all
}

// Whether each caller was sent all its lines.
fn all_done(feeds: &[Feed]) -> bool
    ensures { result ≡ true → All IsFed feeds.now }
{
    'feeds: for feed in feeds {
        if !feed.is_done() {
            return false;
        }
    }
    true
}

impl Feeder {
    /// Feeds until all lines are sent, until `stop` is set, or until nobody takes lines any more.
    /// Returns whether each caller was sent all its lines.
    pub fn run<R: Wait>(&mut self, rt: &R, stop: &AtomicBool) -> bool
        ensures plan { self.new.plan ≡ self.old.plan }
        ensures all { result ≡ true → All IsFed self.new.feeds.items }
    {
        for _ in rt.forever() {
            if stop.load(Ordering::SeqCst) {
                break;
            }
            match feed_all(rt, &mut self.feeds) {
                Step::Done => break,
                Step::Waits => thread::yield_now(),
                Step::Sent => {}
            }
        }
        all_done(&self.feeds)
    }
}

/// Lines of callers, and who feeds them: so many commands as the plan says, made from its number,
/// each over a channel of its caller that holds at most `capacity` lines, 1 or more.
///
/// A caller plays its lines as they come, and makes a line itself if none comes for a while. So all
/// lines are played, each as it is made, whether or not the feeder runs.
///
/// `AllocError` if memory runs out.
pub fn open_feed<'a, R>(
    rt: &'a R,
    alloc: Global,
    plan: Plan,
    capacity: u32,
) -> Result<(FeedLines<'a, R>, Feeder), AllocError>
    requires plan { CanBeMade plan }
    requires capacity { 0 < capacity }
    ensures { IfOk result (λ opened. (opened.0.plan ≡ plan) × (opened.1.plan ≡ plan)) }
{
    let mut hands = Vec::with_capacity(alloc, plan.callers as usize)?;
    let mut feeds = Vec::with_capacity(alloc, plan.callers as usize)?;
    for before in 0..plan.callers {
        let (sending, taking) = open_channel(alloc, capacity)?;
        feeds.push(Feed::new(sending, plan, before + 1))?;
        let making = Making::new(plan.number, plan.callers);
        hands.push(Mutex::new(Hand::new(taking, making)))?;
    }
    Ok((FeedLines::new(rt, plan, hands), Feeder { plan, feeds }))
}

/// Calls `play` in this thread while a feeder runs in another one. The feeder is stopped when `play`
/// has returned. If no thread can be made for it, it is run after `play`, and sends nothing.
///
/// Returns what `play` returned, and whether the feeder sent all lines.
pub fn feed_beside<R, T, F>(rt: &R, feeder: Feeder, play: F) -> (T, bool)
where
    R: Threads + Wait + Sync,
    F: FnOnce() -> T,
    requires { F.pre play }
    ensures { F.post play result.0 }
{
    let stop = AtomicBool::new(false);
    let flag = &stop;
    let (sent_all, played) = thread::join(
        rt,
        move || -> bool {
            let mut feeder = feeder;
            feeder.run(rt, flag)
        },
        move || -> T
            requires { F.pre play }
            ensures { F.post play result }
        {
            let played = play();
            flag.store(true, Ordering::SeqCst);
            played
        },
    );
    (played, sent_all)
}
