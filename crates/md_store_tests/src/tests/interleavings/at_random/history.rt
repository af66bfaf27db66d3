//! The transactions that were begun, and the order in which some became ready.

use super::plain::Plain;
use md_history::{Act, Fate};
use std::alloc::Global;
use std::process::Abort;

#[derive(Drop)]
pub(super) struct History {
    alloc: Global,
    // What each transaction did, and how it was decided as far as is known.
    acts: Vec<Vec<Act>>,
    fates: Vec<Fate>,
    // The places of those that became ready, in their order.
    ready: Vec<usize>,
}

impl History {
    pub(super) fn new(alloc: Global) -> History {
        History {
            alloc,
            acts: Vec::new(alloc),
            fates: Vec::new(alloc),
            ready: Vec::new(alloc),
        }
    }

    // Adds one that has done nothing. Its place.
    pub(super) fn enter<R: Abort>(&mut self, rt: &R) -> usize {
        let place = self.acts.len();
        self.acts.push(Vec::new(self.alloc)).expect(rt, "memory");
        self.fates.push(Fate::Undecided).expect(rt, "memory");
        place
    }

    // The one at this place did this.
    pub(super) fn did<R: Abort>(&mut self, rt: &R, place: usize, act: Act) {
        if let Some(acts) = self.acts.get_mut(place) {
            acts.push(act).expect(rt, "memory");
        }
    }

    // The one at this place became ready.
    pub(super) fn is_ready<R: Abort>(&mut self, rt: &R, place: usize) {
        self.ready.push(place).expect(rt, "memory");
    }

    // The one at this place was committed or aborted.
    pub(super) fn decide(&mut self, place: usize, committed: bool) {
        let fate = if committed {
            Fate::Committed
        } else {
            Fate::Aborted
        };
        if let Some(kept) = self.fates.get_mut(place) {
            *kept = fate;
        }
    }

    // Whether the one at this place was decided so.
    fn has(&self, place: usize, fate: Fate) -> bool {
        match self.fates.get(place) {
            Some(kept) => *kept == fate,
            None => false,
        }
    }

    // How many of those that became ready were decided so.
    pub(super) fn count(&self, fate: Fate) -> usize {
        let mut count = 0usize;
        for place in &self.ready {
            if self.has(*place, fate) {
                count = count.wrapping_add(1);
            }
        }
        count
    }

    // Makes the committed ones again, one after another. The place of the first one that had
    // another reply.
    pub(super) fn replay<R: Abort>(&self, rt: &R, plain: &mut Plain) -> Option<usize> {
        for place in &self.ready {
            if self.has(*place, Fate::Committed) && !self.is_same(rt, *place, plain) {
                return Some(*place);
            }
        }
        None
    }

    // Whether the one at this place has the replies that one thread gives.
    fn is_same<R: Abort>(&self, rt: &R, place: usize, plain: &mut Plain) -> bool {
        match self.acts.get(place) {
            Some(acts) => same_replies(rt, acts, plain),
            None => false,
        }
    }
}

// Whether acts have the replies that one thread gives.
fn same_replies<R: Abort>(rt: &R, acts: &[Act], plain: &mut Plain) -> bool {
    for act in acts {
        if plain.make(rt, act.op) != Some(act.reply) {
            return false;
        }
    }
    true
}
