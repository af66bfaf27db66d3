//! What was read, and the same as text.

ghost use Rattle.std.specs.Prelude.{◌≤◌};
ghost use Rattle.md_book.specs.declared.limits.TheConstants.{MAX_CALLER};

use md_orders::{OrderFault, Scripts, read_orders};
use std::alloc::AllocGlobal;
use std::fmt::Debug;
use std::process::Abort;

/// What was found is what was wanted. (A call is proved sooner than an `assert_eq!`.)
pub(super) fn same<T: PartialEq + Debug>(rt: &impl Abort, found: &T, wanted: &T) {
    assert_eq!(rt; *found, *wanted);
}

/// Adds bytes to a text.
pub(super) fn extend(rt: &impl Abort, text: &mut Vec<u8>, more: &[u8]) {
    text.extend_from_slice(more).expect(rt, "memory");
}

/// A text is the one that is wanted.
pub(super) fn is_text(rt: &impl Abort, text: &str, want: &str) {
    same(rt, &text, &want);
}

/// The bytes of a text are those that are wanted.
pub(super) fn are_bytes(rt: &impl Abort, text: &[u8], want: &[u8]) {
    same(rt, &text, &want);
}

/// A file was refused for its line of this number.
pub(super) fn is_bad_line(rt: &impl Abort, fault: Option<OrderFault>, number: u32) {
    same(rt, &fault, &Some(OrderFault::BadLine(number)));
}

// Adds the command of a line, if there is one, behind its caller and its line.
fn add_command(rt: &impl Abort, text: &mut String, scripts: &Scripts, caller: u32, line: u32) {
    if let Some(command) = scripts.command(caller, line) {
        write!(text, "{caller}:{line} {command:?};").expect(rt, "memory");
    }
}

// Adds the commands of all callers.
fn add_commands(rt: &impl Abort, text: &mut String, scripts: &Scripts) {
    for before in 0..scripts.callers() {
        for earlier in 0..scripts.len(before + 1) {
            add_command(rt, text, scripts, before + 1, earlier + 1);
        }
    }
}

/// The commands of a file that is right.
pub(super) fn read<R: Abort + AllocGlobal>(rt: &R, orders: &[u8], callers: u32) -> Scripts
    requires { (1 ≤ callers) × (callers ≤ MAX_CALLER) }
{
    match read_orders(rt.alloc(), orders, callers) {
        Ok(scripts) => scripts,
        Err(_) => panic!(rt; "refused"),
    }
}

/// The commands of all callers, each behind its caller and its line, or the fault.
pub(super) fn shown<R: Abort + AllocGlobal>(rt: &R, read: Result<Scripts, OrderFault>) -> String {
    let mut text = String::new(rt.alloc());
    match read {
        Ok(scripts) => add_commands(rt, &mut text, &scripts),
        Err(fault) => write!(text, "{fault:?}").expect(rt, "memory"),
    }
    text
}

/// Two files, or two readings of one, give the same commands or the same fault.
pub(super) fn are_alike<R: Abort + AllocGlobal>(
    rt: &R,
    one: Result<Scripts, OrderFault>,
    other: Result<Scripts, OrderFault>,
) {
    let text = shown(rt, one);
    is_text(rt, text.as_str(), shown(rt, other).as_str());
}
