//! How a run ends.

ghost use Rattle.std.specs.Prelude.{◌≡◌};

use crate::input::InputFault;
use md_orders::OrderFault;
use std::alloc::AllocError;
use std::process::ExitCode;

/// How a run ended, and the number that the program exits with.
#[derive(Clone, Copy, Debug, PartialEq, Eq)]
pub enum Status {
    /// The report or the summary was written whole. 0.
    Done,
    /// The words aren't accepted. 2.
    Usage,
    /// The record of this number, counted from 1, is the first that breaks the grammar. 3.
    BadLine(u32),
    /// A read failed. 4.
    ReadFault,
    /// A write of the report or the summary failed. 5.
    WriteFault,
    /// The program ran out of memory. 6.
    NoMemory,
    /// The input has more than 67,108,864 bytes. 7.
    TooLong,
    /// The input has more than 1,000,000 records. 8.
    TooMany,
}

impl Status {
    ghost use Rattle.md_program_edge.specs.Status.{status_number};

    /// The number that the program exits with.
    pub fn number(self) -> u8
        ensures { result ≡ status_number self }
    {
        match self {
            Status::Done => 0,
            Status::Usage => 2,
            Status::BadLine(_) => 3,
            Status::ReadFault => 4,
            Status::WriteFault => 5,
            Status::NoMemory => 6,
            Status::TooLong => 7,
            Status::TooMany => 8,
        }
    }
}

/// The exit status is the number.
impl From<Status> for ExitCode {
    ghost use Rattle.std.specs.Process.{exit_status};
    ghost use Rattle.md_program_edge.specs.Status.{status_number};

    ghost from_gives = { λ status code. exit_status code ≡ status_number status };

    fn from(status: Status) -> ExitCode {
        ExitCode::from(status.number())
    }
}

/// Each fault of the input is a status of its own.
impl From<InputFault> for Status {
    ghost use Rattle.md_program_edge.specs.Faults.{input_status};

    ghost from_gives = { λ fault status. status ≡ input_status fault };

    fn from(fault: InputFault) -> Status {
        match fault {
            InputFault::TooLong => Status::TooLong,
            InputFault::ReadFault => Status::ReadFault,
            InputFault::NoMemory => Status::NoMemory,
        }
    }
}

/// Each fault of an order file is a status of its own.
impl From<OrderFault> for Status {
    ghost use Rattle.md_program_edge.specs.Faults.{order_status};

    ghost from_gives = { λ fault status. status ≡ order_status fault };

    fn from(fault: OrderFault) -> Status {
        match fault {
            OrderFault::TooMany => Status::TooMany,
            OrderFault::BadLine(number) => Status::BadLine(number),
            OrderFault::NoMemory => Status::NoMemory,
        }
    }
}

/// Out of memory.
impl From<AllocError> for Status {
    ghost use Rattle.md_program_edge.specs.declared.status.Status.TheVariants.{NoMemory};

    ghost from_gives = { λ _ status. status ≡ NoMemory };

    fn from(_: AllocError) -> Status {
        Status::NoMemory
    }
}
