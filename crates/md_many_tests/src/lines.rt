//! Lines whose replies are their tags.

ghost use Rattle.std.specs.Prelude.{◌≡◌, ℕ};
ghost use Rattle.md_many_attempts.specs.Tags.{tag_of};

use crate::compared::same;
use md_history::Body;
use md_many::{Lines, line_tag};
use std::process::Abort;

// A body that answers its number. There is one like it for each number.
pub(crate) trait Numbered: Body<Reply = u64> + Copy + Drop + Sync {
    ghost with_number: { Self → ℕ → Self };

    fn with_number(&self, number: u64) -> Self
        ensures { result ≡ with_number self.now number };
}

// So many callers with so many lines each, all like one body. The number of each is its tag.
#[derive(Clone, Copy)]
pub(crate) struct EachLine<T> {
    pub(crate) callers: u32,
    pub(crate) lines: u32,
    pub(crate) like: T,
}

impl<T: Numbered> Lines for EachLine<T> {
    ghost use Rattle.std.specs.Prelude.{◌&&◌, if◌then◌else◌, nat_le, Some, None};
    ghost use Rattle.std.proofs.Common.{arith};
    ghost use Rattle.std.proofs.lemmas.Bool.Decides.{nat_tests};

    type B = T;

    ghost caller_count = { λ n. n.callers };

    ghost line_count = { λ n caller.
        if nat_le 1 caller && nat_le caller n.callers then n.lines else 0 };

    ghost body_at = { λ n caller line.
        if nat_le 1 line
        && nat_le line (if nat_le 1 caller && nat_le caller n.callers then n.lines else 0)
        then Some (T.with_number n.like (tag_of caller line)) else None };

    fn callers(&self) -> u32 {
        self.callers
    }

    fn len(&self, caller: u32) -> u32 {
        if caller == 0 || caller > self.callers {
            return 0;
        }
        self.lines
    }

    fn body(&self, caller: u32, line: u32) -> Option<T> {
        if line == 0 || line > self.len(caller) {
            return None;
        }
        Some(self.like.with_number(line_tag(caller, line)))
    }

    ghost has_body = { λ n caller line.
        (Prim.grind (arith, nat_tests), Prim.grind (arith, nat_tests)) };

    ghost has_caller = { λ n caller other. Prim.grind (arith, nat_tests) };
}

// The replies are tags, one after another, the first of which comes after this one.
pub(crate) fn are_tags(rt: &impl Abort, before: u64, replies: &[u64]) {
    for (place, reply) in replies.iter().enumerate() {
        same(rt, reply, &before.wrapping_add(place as u64 + 1));
    }
}
