//! Callers that play lines of their own over any store, whatever the lines do.
#![tactic(auto)]

mod closing;
mod course;
mod keepers;
mod keeping;
mod laws;
mod many;
mod playing;
mod rounds;
mod running_lines;
mod turns;

pub use closing::{OpenRounds, Rounds, play_rounds};
pub use keepers::Keeper;
pub use laws::{LawfulBody, LawfulLines};
pub use many::{Many, run_many};
pub use md_many_attempts::{
    End, FreeGate, Gate, Lines, LinesByCaller, MOST_CONFLICTS, ReplyList, Turn, attempt_line,
    attempt_lines, attempt_until_committed, line_tag,
};
pub use playing::Play;
pub use rounds::play_open_rounds;
pub use running_lines::run_lines;
