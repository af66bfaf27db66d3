//! Settling an attempt: whoever meets it decides it.

ghost use Rattle.std.specs.Prelude.{◌≡◌, ◌≢◌, ◌<◌, ◌≤◌};
ghost use Rattle.md_words.specs.declared.limits.TheConstants.{SET};
ghost use Rattle.md_words.specs.declared.status.Status.TheVariants.{InPrep, InProg};
ghost use Rattle.md_words.specs.Layout.{desc_count};
ghost use Rattle.md_words.specs.Status.{reads_of, serial_of, status_of};
ghost use Rattle.md_machine.specs.Own.{HasDesc};
ghost use Rattle.md_machine.specs.events.Uninstall.{IsDecided};
ghost use Rattle.md_rule.specs.InHand.{HoldsDesc};
ghost use Rattle.md_rule.specs.Kept.{IsReached};
ghost use Rattle.md_rule.specs.Views.{IsOf};
ghost use Rattle.md_help.specs.Clears.{SettlesOne};
ghost use Rattle.md_help.specs.After.{OnlySteps, StandsInField};
ghost use Rattle.md_help.specs.Owns.{EndsOwn, IsOwnLast, KnowsEnd};
ghost use Rattle.md_help.specs.Settles.{EndIs, HasMetAttempt, Settled, SettledNewer};

use crate::reads::validate;
use md_machine::Theory;
use md_rule::{Field, Pass};
use md_words::{Status, StatusWord};

/// How an attempt ended that stood in the way. Gone: its descriptor serves another attempt by now.
#[derive(Clone, Copy, Debug, PartialEq, Eq)]
pub enum End {
    Committed,
    Aborted,
    Gone,
}

/// Decides the attempt whose status the first step finds, in at most `3r + 3` steps of this pass,
/// whatever others do; `r` is the number of its reads. An attempt that isn't ready is aborted. One
/// that is ready is committed if all its reads stand, and aborted otherwise. It is Gone exactly if
/// a later step finds another attempt's status: never if the descriptor is of one of the pass's
/// lanes, since nobody else begins its attempts.
///
/// The descriptor exists. It is of one of the pass's lanes and an attempt of it was taken
/// (`take_descriptor` of md_arena), or it was found standing in a counted word. It isn't that of
/// the transaction in hand. It takes no memory.
pub fn settle_one<T: Theory>(field: &Field<T>, pass: &mut Pass<T>, desc: u32) -> End
    requires field { IsOf pass.old field.now }
    requires exists { desc < desc_count field.now.origin.shape }
    requires reached { IsReached pass.old desc }
    requires other { ¬ HoldsDesc pass.old.view desc }
    ensures same { pass.new ≡ record pass.old { view = pass.new.view } }
    ensures stands { StandsInField T.meaning field.now.origin pass.new.view }
    ensures settles { SettlesOne field.now.origin.shape desc result pass.old.view
        pass.new.view }
    ensures own { HasDesc field.now.origin.shape pass.old.view desc
        → EndsOwn field.now.origin.shape desc result pass.old.view pass.new.view }
{
    let status = pass.load(field, field.shape().status(desc));
    settle(field, pass, desc, status)
}

// From a status that was met: aborts the attempt if it isn't ready, and else decides it by its
// reads.
pub(crate) fn settle<T: Theory>(field: &Field<T>, pass: &mut Pass<T>, desc: u32, status: u64) -> End
    requires field { IsOf pass.old field.now }
    requires stands { StandsInField T.meaning field.now.origin pass.old.view }
    requires attempt { HasMetAttempt field.now.origin.shape pass.old desc status }
    requires few { reads_of status ≤ SET }
    ensures steps { OnlySteps T.meaning field.now.origin pass.old pass.new }
    ensures settled { Settled field.now.origin.shape desc status 2 result pass.old.view
        pass.new.view }
    ensures own { IsOwnLast field.now.origin.shape pass.old.view desc status
        → KnowsEnd field.now.origin.shape pass.new.view desc (serial_of status) result }
{
    match StatusWord::of(status).status {
        Status::InPrep => abort_unready(field, pass, desc, status),
        _ => settle_ready(field, pass, desc, status),
    }
}

// Aborts an attempt that isn't ready, and goes on from the newer status if that loses.
fn abort_unready<T: Theory>(field: &Field<T>, pass: &mut Pass<T>, desc: u32, status: u64) -> End
    requires field { IsOf pass.old field.now }
    requires attempt { HasMetAttempt field.now.origin.shape pass.old desc status }
    requires unready { status_of status ≡ InPrep }
    ensures steps { OnlySteps T.meaning field.now.origin pass.old pass.new }
    ensures settled { Settled field.now.origin.shape desc status 2 result pass.old.view
        pass.new.view }
    ensures own { IsOwnLast field.now.origin.shape pass.old.view desc status
        → KnowsEnd field.now.origin.shape pass.new.view desc (serial_of status) result }
{
    match pass.abort(field, desc, status) {
        Ok(()) => End::Aborted,
        Err(newer) => settle_newer(field, pass, desc, status, newer),
    }
}

// From a status that a lost abort found.
fn settle_newer<T: Theory>(
    field: &Field<T>,
    pass: &mut Pass<T>,
    desc: u32,
    old: u64,
    newer: u64,
) -> End
    requires field { IsOf pass.old field.now }
    requires stands { StandsInField T.meaning field.now.origin pass.old.view }
    requires attempt { HasMetAttempt field.now.origin.shape pass.old desc newer }
    requires few { reads_of newer ≤ SET }
    requires ready { serial_of newer ≡ serial_of old → status_of newer ≢ InPrep }
    ensures steps { OnlySteps T.meaning field.now.origin pass.old pass.new }
    ensures settled { SettledNewer field.now.origin.shape desc old newer result pass.old.view
        pass.new.view }
    ensures own { serial_of newer ≡ serial_of old
        → IsOwnLast field.now.origin.shape pass.old.view desc newer
        → KnowsEnd field.now.origin.shape pass.new.view desc (serial_of newer) result }
{
    if StatusWord::of(newer).serial != StatusWord::of(old).serial {
        return End::Gone;
    }
    settle_ready(field, pass, desc, newer)
}

// From a status that is ready: decides it by its reads, unless it is decided already.
fn settle_ready<T: Theory>(field: &Field<T>, pass: &mut Pass<T>, desc: u32, status: u64) -> End
    requires field { IsOf pass.old field.now }
    requires stands { StandsInField T.meaning field.now.origin pass.old.view }
    requires attempt { HasMetAttempt field.now.origin.shape pass.old desc status }
    requires few { reads_of status ≤ SET }
    requires ready { status_of status ≢ InPrep }
    ensures steps { OnlySteps T.meaning field.now.origin pass.old pass.new }
    ensures settled { Settled field.now.origin.shape desc status 1 result pass.old.view
        pass.new.view }
    ensures own { IsOwnLast field.now.origin.shape pass.old.view desc status
        → KnowsEnd field.now.origin.shape pass.new.view desc (serial_of status) result }
{
    match StatusWord::of(status).status {
        Status::InProg => decide(field, pass, desc, status),
        Status::Committed => End::Committed,
        _ => End::Aborted,
    }
}

// Validates the reads of an attempt that is in progress, and commits or aborts it.
fn decide<T: Theory>(field: &Field<T>, pass: &mut Pass<T>, desc: u32, status: u64) -> End
    requires field { IsOf pass.old field.now }
    requires stands { StandsInField T.meaning field.now.origin pass.old.view }
    requires attempt { HasMetAttempt field.now.origin.shape pass.old desc status }
    requires few { reads_of status ≤ SET }
    requires in_progress { status_of status ≡ InProg }
    ensures steps { OnlySteps T.meaning field.now.origin pass.old pass.new }
    ensures settled { Settled field.now.origin.shape desc status 1 result pass.old.view
        pass.new.view }
    ensures own { IsOwnLast field.now.origin.shape pass.old.view desc status
        → KnowsEnd field.now.origin.shape pass.new.view desc (serial_of status) result }
{
    if validate(field, pass, desc, StatusWord::of(status).reads) {
        return match pass.commit(field, desc, status) {
            Ok(()) => End::Committed,
            Err(newer) => end_of(status, newer),
        };
    }
    match pass.abort(field, desc, status) {
        Ok(()) => End::Aborted,
        Err(newer) => end_of(status, newer),
    }
}

// Which end a later status tells.
fn end_of(old: u64, newer: u64) -> End
    requires { serial_of newer ≡ serial_of old → IsDecided (status_of newer) }
    ensures { EndIs old newer result }
{
    if StatusWord::of(newer).serial != StatusWord::of(old).serial {
        return End::Gone;
    }
    match StatusWord::of(newer).status {
        Status::Committed => End::Committed,
        _ => End::Aborted,
    }
}
