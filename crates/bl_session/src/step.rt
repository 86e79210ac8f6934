// What a step of a session comes to.
ghost use Rattle.std.specs.Prelude.{◌≡◌};
ghost use Rattle.bl_session.specs.Steps.{fault_from, step_of};

use bl_http::HttpFault;
use thiserror::Error;

/// What a step of a session came to.
#[derive(Clone, Copy, Debug, PartialEq, Eq)]
pub enum Step {
    /// A request was answered, and the connection goes on.
    Answered,
    /// The connection ends with the reply that was written.
    Closed,
    /// The input ended behind a request.
    Ended,
    /// The input ended inside a request.
    Torn,
    /// 1 TiB was taken of the input.
    TooLong,
}

impl Step {
    /// A request was answered whose reply ends the connection, or doesn't.
    pub fn of(ends: bool) -> Step
        ensures { result ≡ step_of ends }
    {
        if ends { Step::Closed } else { Step::Answered }
    }
}

/// Why a step of a session wasn't made whole.
#[derive(Clone, Copy, Debug, PartialEq, Eq, Error)]
pub enum SessionFault {
    /// The source failed. Its count of faults rose.
    #[error("the input could not be read")]
    ReadFault,
    /// The sink failed. Its count of faults rose.
    #[error("the reply could not be written")]
    WriteFault,
    #[error("out of memory")]
    NoMemory,
}

impl From<HttpFault> for SessionFault {
    ghost use Rattle.std.specs.Prelude.{◌≡◌};
    ghost use Rattle.bl_session.specs.Steps.{fault_from};

    ghost from_gives = { λ fault e. e ≡ fault_from fault };

    fn from(fault: HttpFault) -> SessionFault {
        match fault {
            HttpFault::ReadFault => SessionFault::ReadFault,
            HttpFault::NoMemory => SessionFault::NoMemory,
        }
    }
}
