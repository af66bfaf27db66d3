//! Lists of bodies, one for each caller.

ghost use Rattle.std.specs.Prelude.{◌≡◌, ◌<◌, ◌≤◌, ◌^◌, ◌⊎◌, [], length, sum_by, IfNone, IfSome};
ghost use Rattle.md_many_attempts.specs.ByCaller.{at_caller, lines_of, lists_in};

use crate::callers::Lines;
use md_history::Body;
use std::marker::Model;

/// A list of bodies for each caller, which are its lines. Callers and lines are counted from 1.
/// Contracts see a list of lists.
#[derive(Drop)]
pub struct LinesByCaller<T> {
    lists: Vec<Vec<T>>,
    total: u32,
}

impl<T> Model for LinesByCaller<T> {
    ghost use Rattle.std.specs.Prelude.{List};
    ghost use Rattle.md_many_attempts.specs.ByCaller.{lists_in};
    ghost use Rattle.md_many_attempts.specs.LineLists.{AreCounted};

    ghost Value = { List (List T) };

    ghost view = { λ l. lists_in l.lists.items };

    ghost invariant = { λ l. AreCounted l.total (lists_in l.lists.items) };
}

// How many lines there are, if they are below 2^32.
fn counted<T>(lists: &[Vec<T>]) -> Option<u32>
    ensures count { IfSome result (λ n. n ≡ sum_by (λ list. length list.items) lists.now) }
    ensures none { IfNone result (2 ^ 32 ≤ sum_by (λ list. length list.items) lists.now) }
{
    let mut total = 0u32;
    'lists: for list in lists {
        let Ok(count) = u32::try_from(list.len()) else {
            return None;
        };
        total = total.checked_add(count)?;
    }
    Some(total)
}

impl<T: Drop> LinesByCaller<T> {
    /// These lists as lines. `None` exactly if there are 2^32 callers or more, or 2^32 lines or
    /// more.
    pub fn new(lists: Vec<Vec<T>>) -> Option<LinesByCaller<T>>
        ensures some { IfSome result (λ l. l ≡ lists_in lists.items) }
        ensures none { IfNone result ((2 ^ 32 ≤ length lists.items)
            ⊎ (2 ^ 32 ≤ sum_by length (lists_in lists.items))) }
        ensures few { IfSome result (λ l. (length l < 2 ^ 32) × (sum_by length l < 2 ^ 32)) }
    {
        if lists.len() > u32::MAX as usize {
            return None;
        }
        let total = counted(&lists)?;
        Some(LinesByCaller { lists, total })
    }

    /// How many lines there are, of all callers.
    pub fn total(&self) -> u32
        ensures count { result ≡ sum_by length self.now }
        ensures lines { result
            ≡ lines_of (λ caller. length (at_caller [] self.now caller)) (length self.now) }
    {
        self.total
    }

    // A caller's list. It is empty if there is no such caller.
    fn list(&self, caller: u32) -> &[T]
        ensures list { result.now ≡ at_caller [] self.now caller }
        ensures few { length result.now < 2 ^ 32 }
    {
        if caller == 0 || caller as usize > self.lists.len() {
            return &[];
        }
        &self.lists[caller as usize - 1]
    }
}

impl<T: Body + Copy + Drop + Sync> Lines for LinesByCaller<T> {
    ghost use Rattle.std.specs.Prelude.{length};
    ghost use Rattle.md_many_attempts.specs.ByCaller.{at_caller, line_at};
    ghost use Rattle.md_many_attempts.specs.LineLists.{has-line, no-lines};

    type B = T;

    ghost caller_count = { λ l. length l };

    ghost line_count = { λ l caller. length (at_caller [] l caller) };

    ghost body_at = { λ l caller line. line_at l caller line };

    fn callers(&self) -> u32 {
        self.lists.len() as u32
    }

    fn len(&self, caller: u32) -> u32 {
        self.list(caller).len() as u32
    }

    fn body(&self, caller: u32, line: u32) -> Option<T> {
        let list = self.list(caller);
        if line == 0 || line as usize > list.len() {
            return None;
        }
        let index = line as usize - 1;
        Some(list[index])
    }

    ghost has_body = { λ l caller line. has-line l caller line };

    ghost has_caller = { λ l caller other. no-lines l caller other };
}
