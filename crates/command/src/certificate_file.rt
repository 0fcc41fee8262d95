// The certificate of a file.
ghost use Rattle.command.specs.Calls.{IsCertificateAs};
ghost use Rattle.command.specs.Reads.{reads};

use crate::sources::read;
use crate::types::Certificate;
use certificate::read_certificate;
use fq_core::Fault;
use fq_io::Files;
use std::alloc::Global;

const MOST_CERTIFICATE_BYTES: u64 = 268_435_456;

/// Reads the certificate of a file.
pub fn read_certificate_file<F: Files>(
    alloc: Global,
    files: &mut F,
    file: &str,
) -> Result<Certificate, Fault>
    ensures { IsCertificateAs (reads F.Files files.old files.new) file.now result }
{
    let bytes = read(alloc, files, file, MOST_CERTIFICATE_BYTES)?;
    let (formula, derivation) = read_certificate(alloc, &bytes)?;
    Ok(Certificate {
        formula,
        derivation,
    })
}
