//! Words taken apart and put together.

use crate::tests::same;
use md_words::{Content, Spot, Status, StatusWord};

#[test]
fn contents(rt: HostRuntime) {
    let spot = Spot { desc: 3, slot: 7 };
    same(&rt, &spot.value(), &775);
    for (word, value, count, stands) in [
        ((4 << 32) + 2, 4, 2, None),
        ((36 << 32) + 2, 36, 2, None),
        ((775 << 32) + 5, 775, 5, Some(spot)),
        ((256 << 32) + 1, 256, 1, Some(Spot { desc: 1, slot: 0 })),
    ] {
        let content = Content { value, count };
        let found = (Content::of(word), content.word(), content.stands());
        same(&rt, &found, &(content, word, stands));
    }
}

// The word of these parts. `None` if the serial is too large.
fn word_of(held: StatusWord) -> Option<u64> {
    if held.serial >= 1 << 54 {
        return None;
    }
    Some(held.word())
}

#[test]
fn status_words(rt: HostRuntime) {
    for (word, status, reads, serial) in [
        (0, Status::InPrep, 0, 0),
        (3, Status::Aborted, 0, 0),
        (1 + 4 * 5, Status::InProg, 5, 0),
        (2 + 4 * 5, Status::Committed, 5, 0),
        (3 + 4 * 5, Status::Aborted, 5, 0),
        (1024, Status::InPrep, 0, 1),
    ] {
        let held = StatusWord {
            status,
            reads,
            serial,
        };
        let found = (StatusWord::of(word), word_of(held));
        same(&rt, &found, &(held, Some(word)));
    }
}
