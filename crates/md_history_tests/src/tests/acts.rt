//! Acts are counted, and kept.

ghost use Rattle.std.specs.Prelude.{◌≡◌, ◌∷◌, [], Some, None, true, false};
ghost use Rattle.md_history.specs.declared.acts.Op.TheVariants as op;
ghost use Rattle.md_history.specs.declared.acts.Reply.TheVariants as reply;
ghost use Rattle.md_history.specs.Act.{act_of};
ghost use Rattle.md_history.specs.State.{line_of};
ghost use Rattle.md_history.specs.Counts.{reads, writes, nodes};

use crate::tests::same;
use md_history::{Act, Acts, Line, MAX_LINE, Op, Reply};
use std::process::Abort;
use std::test::Fail;

// What some acts count, by hand. They look for a key in vain, add another, take it out, set it and
// fail to add the first; they put a value into queue 0, take it out, and look at its first values
// twice; and they put a value into queue 1.
fn counts()
    ensures { let acts = act_of (op.Get 0 1) (reply.Value None)
        ∷ act_of (op.Insert 0 2 9) (reply.Flag true)
        ∷ act_of (op.Remove 0 2) (reply.Value (Some 9))
        ∷ act_of (op.Put 0 2 8) (reply.Value None)
        ∷ act_of (op.Insert 0 1 9) (reply.Flag false)
        ∷ act_of (op.Enqueue 0 7) reply.Nothing
        ∷ act_of (op.Dequeue 0) (reply.Value (Some 7))
        ∷ act_of (op.Front 0) (reply.Value None)
        ∷ act_of (op.Line 0 3) (reply.Line (line_of []))
        ∷ act_of (op.Enqueue 1 8) reply.Nothing ∷ []
        in (reads acts ≡ 5) × (writes acts ≡ 13) × (nodes acts ≡ 4) }
{}

#[test]
fn acts_are_counted() {
    counts();
}

// The list has these acts, and no others.
pub(super) fn has_acts(rt: &impl Abort, acts: &Acts, want: &[Act]) {
    for (place, act) in want.iter().enumerate() {
        same(rt, &acts.get(place), &Some(*act));
    }
    same(rt, &(acts.len(), acts.get(want.len())), &(want.len(), None));
}

// An act with each kind of reply.
fn each_reply() -> [Act; 7] {
    let mut values = [0; MAX_LINE];
    values[0] = 5;
    values[1] = 6;
    let line = Line { count: 2, values };
    let insert = Op::Insert {
        map: 2,
        key: 3,
        value: 4,
    };
    let put = Op::Put {
        map: 2,
        key: 3,
        value: 5,
    };
    [
        Act {
            op: Op::Get { map: 2, key: 3 },
            reply: Reply::Value(None),
        },
        Act {
            op: Op::Remove { map: 2, key: 3 },
            reply: Reply::Value(Some(4)),
        },
        Act {
            op: insert,
            reply: Reply::Flag(true),
        },
        Act {
            op: put,
            reply: Reply::Value(Some(4)),
        },
        Act {
            op: Op::Enqueue { queue: 1, value: 4 },
            reply: Reply::Nothing,
        },
        Act {
            op: Op::Line { queue: 1, n: 9 },
            reply: Reply::Line(line),
        },
        Act {
            op: Op::Front { queue: 1 },
            reply: Reply::Value(Some(0)),
        },
    ]
}

// Each kind of reply is given back as it was kept.
#[test]
fn acts_are_kept(rt: HostRuntime) -> Result<(), Fail> {
    let all = each_reply();
    let mut acts = Acts::new(rt.alloc());
    for act in &all {
        acts.push(act.op, act.reply)?;
    }
    has_acts(&rt, &acts, &all);
    Ok(())
}
