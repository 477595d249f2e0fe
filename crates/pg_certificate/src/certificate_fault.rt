//! Why bytes aren't a certificate.

ghost use Rattle.std.specs.Prelude.{◌≡◌};
ghost use Rattle.pg_certificate.specs.declared.certificate_fault.CertificateFault.TheVariants.{Memory};

use std::alloc::{AllocError, AllocFailed};
use thiserror::Error;

/// Why bytes gave no certificate of a grammar (ours).
#[derive(Debug, Drop, Error)]
pub enum CertificateFault {
    /// They are not UTF-8, or no JSON text. Arrays and objects nest at most 127 deep in JSON here, and a number must be one that a float
    /// can come near to.
    #[error("V1 not JSON")]
    NotJson,
    /// They are JSON of something else: a key is missing or unknown, rules are missing, too many or in another order, a start isn't
    /// the grammar's, ranges aren't a class's, or a number isn't a whole one within its limits.
    #[error("V2 not a certificate")]
    NotACertificate,
    /// Memory ran out.
    #[error("out of memory")]
    Memory,
}

impl From<AllocError> for CertificateFault {
    ghost from_gives = { λ _ e. e ≡ Memory };

    fn from(_e: AllocError) -> CertificateFault {
        CertificateFault::Memory
    }
}

impl<T: Drop> From<AllocFailed<T>> for CertificateFault {
    ghost from_gives = { λ _ e. e ≡ Memory };

    fn from(_e: AllocFailed<T>) -> CertificateFault {
        CertificateFault::Memory
    }
}
