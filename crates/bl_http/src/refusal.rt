// Why a request was not read.
ghost use Rattle.std.specs.Prelude.{◌≡◌};
ghost use Rattle.bl_http.specs.declared.refusal.HttpFault.TheVariants as fault;

use bl_outside::{Failed, NoMemory};
use std::alloc::AllocError;
use thiserror::Error;

/// Why the head of a request is refused. The connection ends with the reply.
#[derive(Clone, Copy, Debug, PartialEq, Eq, Error)]
pub enum HeadRefusal {
    #[error("the request head can not be read")]
    BadHead,
    #[error("the request head is too large")]
    HeadTooLarge,
    #[error("content-length is not one number")]
    BadLength,
    #[error("the body has more than 1048576 bytes")]
    BodyTooLarge,
    #[error("transfer-encoding is not supported")]
    TransferEncoding,
}

/// Why no answer was found.
#[derive(Clone, Copy, Debug, PartialEq, Eq, Error)]
pub enum HttpFault {
    /// The source failed. Its count of faults rose.
    #[error("the input could not be read")]
    ReadFault,
    #[error("out of memory")]
    NoMemory,
}

impl From<Failed> for HttpFault {
    ghost from_gives = { λ _ e. e ≡ fault.ReadFault };

    fn from(_: Failed) -> HttpFault {
        HttpFault::ReadFault
    }
}

impl From<NoMemory> for HttpFault {
    ghost from_gives = { λ _ e. e ≡ fault.NoMemory };

    fn from(_: NoMemory) -> HttpFault {
        HttpFault::NoMemory
    }
}

impl From<AllocError> for HttpFault {
    ghost from_gives = { λ _ e. e ≡ fault.NoMemory };

    fn from(_: AllocError) -> HttpFault {
        HttpFault::NoMemory
    }
}
