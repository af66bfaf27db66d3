//! The two ends of a channel that carries a caller's lines.

ghost use Rattle.std.specs.Prelude.{◌≡◌, ◌<◌, [], ◌∷◌, ◌++◌, true, false, IfOk};
ghost use Rattle.crossbeam_channel.specs.Claims.{view, IsSeatAt};
ghost use Rattle.crossbeam_channel.specs.Ends.{sends_on, receives_on};
ghost use Rattle.md_feed_lines.specs.Fed.{place, AreFirstLines};

use crate::fed::{Ends, FedLine, Place, Relay, Sent, Taken};
use crossbeam_channel::{
    Pass, RuledReceiver, RuledSender, TryRecvError, TrySendError, bounded_with,
};
use std::alloc::{AllocError, Global};
use std::sync::Wait;

/// The end that sends lines.
#[derive(Drop)]
pub(crate) struct SendEnd {
    sender: RuledSender<FedLine, Place, Relay>,
    pass: Pass<FedLine, Place>,
    ghost seat: { IsSeatAt (sends_on sender) pass },
    ghost sends: { ((view pass).sends ≡ true) × ((view pass).takes ≡ false) },
}

/// The end that takes lines.
#[derive(Drop)]
pub(crate) struct TakeEnd {
    receiver: RuledReceiver<FedLine, Place, Relay>,
    pass: Pass<FedLine, Place>,
    ghost seat: { IsSeatAt (receives_on receiver) pass },
    ghost takes: { ((view pass).sends ≡ false) × ((view pass).takes ≡ true) },
}

/// What became of a line that was offered.
#[derive(Clone, Copy, PartialEq, Eq)]
pub(crate) enum Offer {
    /// It was sent.
    Sent,
    /// The channel is full, or the other end is about to take a line.
    Full,
    /// The other end is gone.
    Gone,
}

/// What a call that takes a line found.
#[derive(Clone, Copy)]
pub(crate) enum Found {
    Line(FedLine),
    /// The channel is empty, or the other end is about to send a line.
    Empty,
    /// The channel is empty, and the other end is gone.
    Gone,
}

/// A channel that holds so many lines. `AllocError` if memory runs out.
pub(crate) fn open_channel(alloc: Global, capacity: u32) -> Result<(SendEnd, TakeEnd), AllocError>
    requires { 0 < capacity }
    ensures sent { IfOk result (λ ends. (view ends.0.pass).lines ≡ []) }
    ensures taken { IfOk result (λ ends. (view ends.1.pass).lines ≡ []) }
{
    let (sender, receiver, mut pass) = bounded_with::<FedLine, Place, Relay, Global>(
        alloc,
        capacity as usize,
    )?;
    let taking = sender.another::<Ends>(&mut pass);
    Ok((
        SendEnd { sender, pass },
        TakeEnd {
            receiver,
            pass: taking,
        },
    ))
}

impl SendEnd {
    /// Offers the caller's next line. It waits for no room.
    pub(crate) fn offer<R: Wait>(&mut self, rt: &R, line: FedLine) -> Offer
        requires next { AreFirstLines ((view self.old.pass).lines ++ line ∷ []) }
        ensures sent { result ≡ Offer.Sent
            → (view self.new.pass).lines ≡ (view self.old.pass).lines ++ line ∷ [] }
        ensures full { result ≡ Offer.Full
            → (view self.new.pass).lines ≡ (view self.old.pass).lines }
        ensures gone { result ≡ Offer.Gone
            → (view self.new.pass).lines ≡ (view self.old.pass).lines }
    {
        match self.sender.try_send_as::<Sent, R>(rt, &mut self.pass, line) {
            Ok(()) => Offer::Sent,
            Err(TrySendError::Full(_)) => Offer::Full,
            Err(_) => Offer::Gone,
        }
    }
}

impl TakeEnd {
    /// Takes the caller's next line, if it has come. It waits for none.
    pub(crate) fn take<R: Wait>(&mut self, rt: &R) -> Found
        ensures line { (line : FedLine) → result ≡ Found.Line line
            → ((view self.new.pass).lines ≡ (view self.old.pass).lines ++ line ∷ [])
            × AreFirstLines (view self.new.pass).lines }
        ensures empty { result ≡ Found.Empty
            → (view self.new.pass).lines ≡ (view self.old.pass).lines }
        ensures gone { result ≡ Found.Gone
            → (view self.new.pass).lines ≡ (view self.old.pass).lines }
    {
        match self.receiver.try_recv_as::<Taken, R>(rt, &mut self.pass) {
            Ok(line) => Found::Line(line),
            Err(TryRecvError::Empty) => Found::Empty,
            Err(TryRecvError::Disconnected) => Found::Gone,
        }
    }
}
