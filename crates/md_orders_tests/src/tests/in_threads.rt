//! The lines that threads write of packed replies, and what follows them.

ghost use Rattle.std.specs.Prelude.{◌≡◌, ◌≤◌, length, OnOk};
ghost use Rattle.md_orders.specs.Records.{max_records};
ghost use Rattle.md_book.specs.declared.limits.TheConstants.{MAX_CALLER};
ghost use Rattle.md_orders.specs.declared.generator.TheConstants.{MAX_MADE_CALLERS};

use crate::tests::reports::{contents_of, reply_with, reported};
use crate::tests::shown::{are_bytes, extend, read, same};
use md_book::{BOUGHT, BookReply, DEPTHS, MAX_PARTS, Part, SOLD, order_name};
use md_orders::{Scripts, make};
use md_report::{after_lines, lines_in_threads};
use md_report_replies::{PackedReplies, RepliesByCaller};
use std::alloc::{AllocError, AllocGlobal};
use std::process::Abort;
use std::thread::Threads;

// Adds replies to those of a caller.
fn add(replies: &mut RepliesByCaller, caller: u32, packed: PackedReplies) -> Result<(), AllocError>
    requires from_1 { 1 ≤ caller }
    requires there { caller ≤ length replies.old }
    ensures { OnOk result (length replies.new ≡ length replies.old) }
{
    replies.add(caller, packed)?;
    Ok(())
}

// Adds replies to those of a caller, and ends the program if memory runs out.
fn must_add(rt: &impl Abort, replies: &mut RepliesByCaller, caller: u32, packed: PackedReplies)
    requires from_1 { 1 ≤ caller }
    requires there { caller ≤ length replies.old }
    ensures { length replies.new ≡ length replies.old }
{
    add(replies, caller, packed).expect(rt, "memory");
}

/// Adds replies at the end of packed ones.
pub(super) fn append(rt: &impl Abort, packed: &mut PackedReplies, list: &[BookReply]) {
    packed.append(list).expect(rt, "memory");
}

// Replies, packed.
fn packed_of<R: Abort + AllocGlobal>(rt: &R, list: &[BookReply]) -> PackedReplies {
    let mut packed = PackedReplies::new(rt.alloc());
    append(rt, &mut packed, list);
    packed
}

// Adds replies to those of a caller, or none.
fn add_list<R: Abort + AllocGlobal>(
    rt: &R,
    replies: &mut RepliesByCaller,
    caller: u32,
    list: &[BookReply],
)
    requires from_1 { 1 ≤ caller }
    requires there { caller ≤ length replies.old }
    ensures { length replies.new ≡ length replies.old }
{
    must_add(rt, replies, caller, packed_of(rt, list));
}

// Adds the reply that `set_all` sets at a line.
fn append_line(
    rt: &impl Abort,
    packed: &mut PackedReplies,
    scripts: &Scripts,
    caller: u32,
    line: u32,
) {
    let Some(command) = scripts.command(caller, line) else {
        panic!(rt; "no such line")
    };
    append(rt, packed, &[reply_with(command, 4)]);
}

// The replies that `set_all` sets, of a caller's lines from one index to another, packed.
fn packed_from<R: Abort + AllocGlobal>(
    rt: &R,
    scripts: &Scripts,
    caller: u32,
    (from, to): (u32, u32),
) -> PackedReplies {
    let mut packed = PackedReplies::new(rt.alloc());
    for before in from..to {
        append_line(rt, &mut packed, scripts, caller, before + 1);
    }
    packed
}

// Adds the replies that `set_all` sets, of a caller's lines from one index to another.
fn add_lines<R: Abort + AllocGlobal>(
    rt: &R,
    replies: &mut RepliesByCaller,
    scripts: &Scripts,
    caller: u32,
    range: (u32, u32),
)
    requires from_1 { 1 ≤ caller }
    requires there { caller ≤ length replies.old }
    ensures { length replies.new ≡ length replies.old }
{
    must_add(rt, replies, caller, packed_from(rt, scripts, caller, range));
}

// Adds the replies that `set_all` sets of a caller, in three pieces.
fn add_pieces<R: Abort + AllocGlobal>(
    rt: &R,
    replies: &mut RepliesByCaller,
    scripts: &Scripts,
    caller: u32,
)
    requires from_1 { 1 ≤ caller }
    requires there { caller ≤ length replies.old }
    ensures { length replies.new ≡ length replies.old }
{
    let end = scripts.len(caller);
    add_lines(rt, replies, scripts, caller, (0, end / 3));
    add_lines(rt, replies, scripts, caller, (end / 3, end / 2));
    add_lines(rt, replies, scripts, caller, (end / 2, end));
}

// The replies that `set_all` sets, added in three pieces a caller.
fn packed_all<R: Abort + AllocGlobal>(rt: &R, scripts: &Scripts) -> RepliesByCaller {
    let mut replies = RepliesByCaller::empty(rt.alloc(), scripts.callers()).expect(rt, "memory");
    'callers: for before in 0..scripts.callers() {
        add_pieces(rt, &mut replies, scripts, before + 1);
    }
    replies
}

// One text in place of its parts.
fn whole<R: Abort + AllocGlobal>(rt: &R, parts: &[Vec<u8>]) -> Vec<u8> {
    let mut text = Vec::new(rt.alloc());
    for part in parts {
        extend(rt, &mut text, part);
    }
    text
}

// The parts that threads write of replies.
fn parts_of<R: Threads + Sync + Abort + AllocGlobal>(
    rt: &R,
    scripts: &Scripts,
    replies: &RepliesByCaller,
) -> Vec<Vec<u8>> {
    lines_in_threads(rt, rt.alloc(), scripts, replies).expect(rt, "memory")
}

// The number of parts that threads write of replies, and their text.
fn in_parts<R: Threads + Sync + Abort + AllocGlobal>(
    rt: &R,
    scripts: &Scripts,
    replies: &RepliesByCaller,
) -> (usize, Vec<u8>) {
    let parts = parts_of(rt, scripts, replies);
    (parts.len(), whole(rt, &parts))
}

// Replies of one caller.
fn of_one<R: Abort + AllocGlobal>(rt: &R, packed: PackedReplies) -> RepliesByCaller {
    let mut replies = RepliesByCaller::empty(rt.alloc(), 1).expect(rt, "memory");
    must_add(rt, &mut replies, 1, packed);
    replies
}

// The lines that threads write of replies to a file of orders.
fn lines_of<R: Threads + Sync + Abort + AllocGlobal>(
    rt: &R,
    orders: &[u8],
    callers: u32,
    replies: &RepliesByCaller,
) -> Vec<u8>
    requires { (1 ≤ callers) × (callers ≤ MAX_CALLER) }
{
    in_parts(rt, &read(rt, orders, callers), replies).1
}

// The lines that threads write of replies to one caller's orders.
pub(super) fn told<R: Threads + Sync + Abort + AllocGlobal>(
    rt: &R,
    orders: &[u8],
    packed: PackedReplies,
) -> Vec<u8> {
    lines_of(rt, orders, 1, &of_one(rt, packed))
}

// What follows the lines.
fn end_of<R: Abort + AllocGlobal>(
    rt: &R,
    scripts: &Scripts,
    values: &[(u32, u64, u64)],
) -> Vec<u8> {
    let contents = contents_of(rt, values);
    after_lines(rt.alloc(), scripts, &contents).expect(rt, "memory")
}

// The number of parts that threads write of the replies that `set_all` sets, and the text of the
// parts and of what follows the lines.
fn written<R: Threads + Sync + Abort + AllocGlobal>(
    rt: &R,
    scripts: &Scripts,
    values: &[(u32, u64, u64)],
) -> (usize, Vec<u8>) {
    let (parts, mut text) = in_parts(rt, scripts, &packed_all(rt, scripts));
    extend(rt, &mut text, &end_of(rt, scripts, values));
    (parts, text)
}

// So many parts were written, and this text, of scripts of so many callers.
fn is_written(rt: &impl Abort, found: (usize, &[u8]), want: (usize, &[u8]), callers: u32) {
    same(rt, &(callers, found), &(callers, want));
}

// Threads write the report of scripts in so many parts.
fn is_written_alike<R: Threads + Sync + Abort + AllocGlobal>(
    rt: &R,
    scripts: &Scripts,
    count: usize,
) {
    let values = [(DEPTHS, 1_999, 7), (BOUGHT, 5, 3), (SOLD, 9_999, 2)].as_slice();
    let want = reported(rt, scripts, 4, values);
    let (parts, text) = written(rt, scripts, values);
    let found = (parts, text.as_slice());
    is_written(rt, found, (count, want.as_slice()), scripts.callers());
}

// Threads write the report of made scripts, in so many parts.
fn is_report_written<R: Threads + Sync + Abort + AllocGlobal>(
    rt: &R,
    callers: u32,
    lines: u32,
    count: usize,
)
    requires callers { (1 ≤ callers) × (callers ≤ MAX_MADE_CALLERS) }
    requires lines { (1 ≤ lines) × (lines ≤ max_records) }
{
    let scripts = make(rt.alloc(), 7, lines, callers).expect(rt, "memory");
    is_written_alike(rt, &scripts, count);
}

#[test]
fn threads_write_the_same_report(rt: HostRuntime) {
    is_report_written(&rt, 1, 40, 1);
    is_report_written(&rt, 1, 4_096, 2);
    is_report_written(&rt, 1, 20_001, 8);
    is_report_written(&rt, 2, 81, 2);
    is_report_written(&rt, 2, 8_193, 4);
    is_report_written(&rt, 3, 12_301, 6);
    is_report_written(&rt, 5, 203, 5);
    is_report_written(&rt, 8, 23, 8);
    is_report_written(&rt, 5, 3, 5);
}

// A fill of four from the first order, with a part less than it tells of.
fn fill() -> BookReply {
    let mut parts = [Part { name: 0, taken: 0 }; MAX_PARTS];
    parts[0] = Part {
        name: order_name(1, 1),
        taken: 4,
    };
    BookReply::Filled {
        taken: 4,
        rest: 5,
        count: 2,
        parts,
    }
}

// Adds four lists to those of the second caller.
fn add_lists<R: Abort + AllocGlobal>(rt: &R, replies: &mut RepliesByCaller)
    requires { 2 ≤ length replies.old }
{
    add_list(rt, replies, 2, &[]);
    add_list(rt, replies, 2, &[BookReply::Depth(7)]);
    add_list(rt, replies, 2, &[]);
    add_list(rt, replies, 2, &[BookReply::Placed, fill()]);
}

// Replies of three callers, of which the second alone has some.
fn replies_of_the_second<R: Abort + AllocGlobal>(rt: &R) -> RepliesByCaller {
    let mut replies = RepliesByCaller::empty(rt.alloc(), 3).expect(rt, "memory");
    add_lists(rt, &mut replies);
    replies
}

#[test]
fn lines_without_a_reply_have_no_text(rt: HostRuntime) {
    let orders = b"1,P,7,S,100,5\n2,D,S,4\n2,P,7,S,100,5\n2,F,8,S,100,9\n2,C,1,1\n2,A,7\n4,A,7\n";
    let text = lines_of(&rt, orders, 4, &replies_of_the_second(&rt));
    let want = b"2:1 depth 7\n2:2 placed\n2:3 filled 4 rest 5 from 1:1=4 0:0=0\n";
    are_bytes(&rt, &text, want);
}

// As many looks at a level, each with its number from 0 on as the depth.
fn depths<R: Abort + AllocGlobal>(rt: &R, count: u32) -> PackedReplies {
    let mut packed = PackedReplies::new(rt.alloc());
    for depth in 0..count {
        append(rt, &mut packed, &[BookReply::Depth(u64::from(depth))]);
    }
    packed
}

// Adds the text of a look at a level.
fn add_depth_line(rt: &impl Abort, text: &mut String, line: u32, depth: u32) {
    writeln!(text, "1:{line} depth {depth}").expect(rt, "memory");
}

// Their text.
fn depth_lines<R: Abort + AllocGlobal>(rt: &R, count: u32) -> String {
    let mut text = String::new(rt.alloc());
    for depth in 0..count {
        add_depth_line(rt, &mut text, depth + 1, depth);
    }
    text
}

// What threads write of 3,000 of them, to 9,000 lines.
fn written_depths<R: Threads + Sync + Abort + AllocGlobal>(rt: &R) -> (usize, Vec<u8>) {
    let scripts = make(rt.alloc(), 7, 9_000, 1).expect(rt, "memory");
    in_parts(rt, &scripts, &of_one(rt, depths(rt, 3_000)))
}

// The lines of a caller are written in four ranges. The second has fewer replies than lines, and
// there is none for those behind it.
#[test]
fn a_range_may_begin_behind_the_replies(rt: HostRuntime) {
    let (parts, text) = written_depths(&rt);
    let want = depth_lines(&rt, 3_000);
    is_written(&rt, (parts, text.as_slice()), (4, want.as_bytes()), 1);
}
