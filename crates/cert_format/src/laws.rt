//! The laws of certificates as text, each the contract of a function that does nothing.
//! The statements are in `specs/TextLaws.antt`.

ghost use Rattle.cert_format.specs.TextLaws.{CertificateReadsBack, PrintedReadsBack, OneCertificate};

/// Canonical text of a certificate is read as it.
pub fn certificate_reads_back()
    ensures { CertificateReadsBack }
{}

/// What is printed of a certificate that was read is read as it.
pub fn printed_reads_back()
    ensures { PrintedReadsBack }
{}

/// A body spells at most one certificate.
pub fn one_certificate()
    ensures { OneCertificate }
{}
