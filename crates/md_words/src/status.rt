//! The status word of a descriptor.

ghost use Rattle.std.specs.Prelude.{◌≡◌, ◌^◌, ◌<◌};

/// How far an attempt has come.
#[derive(Clone, Copy, Debug, PartialEq, Eq)]
pub enum Status {
    /// Its transaction still runs.
    InPrep,
    /// It is ready, and not yet decided.
    InProg,
    Committed,
    Aborted,
}

/// What the status word of a descriptor holds.
#[derive(Clone, Copy, Debug, PartialEq, Eq)]
pub struct StatusWord {
    pub status: Status,
    /// The number of reads, which is 0 before the attempt is ready.
    pub reads: u8,
    /// Which attempt of the descriptor it is, from 0.
    pub serial: u64,
}

#[tactic(auto, unfolding(crate::specs::Status::status_word, crate::specs::Status::status_of, crate::specs::Status::reads_of, crate::specs::Status::serial_of))]
impl StatusWord {
    ghost use Rattle.md_words.specs.Status.{word_of_status, status_parts};

    /// The parts of a status word. `word` is its inverse.
    pub fn of(word: u64) -> StatusWord
        ensures parts { result ≡ status_parts word }
        ensures inverse { word_of_status result ≡ word }
    {
        let status = match word % 4 {
            0 => Status::InPrep,
            1 => Status::InProg,
            2 => Status::Committed,
            _ => Status::Aborted,
        };
        StatusWord {
            status,
            reads: (word / 4 % 256) as u8,
            serial: word / 1024,
        }
    }

    /// The word of these parts, `status + 4 * reads + 1024 * serial`, where the statuses are
    /// numbered from 0 in their order. `of` is its inverse. The serial is below 2^54, so that the
    /// word fits.
    pub fn word(self) -> u64
        requires { self.serial < 2 ^ 54 }
        ensures whole { result ≡ word_of_status self }
        ensures inverse { status_parts result ≡ self }
    {
        let code = match self.status {
            Status::InPrep => 0,
            Status::InProg => 1,
            Status::Committed => 2,
            Status::Aborted => 3,
        };
        code + 4 * self.reads as u64 + 1024 * self.serial
    }
}
