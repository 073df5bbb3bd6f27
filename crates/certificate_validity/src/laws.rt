//! Laws of when a certificate is valid for a condition. Each is a function that does nothing; its contract is the law.

ghost use Rattle.certificate_validity.specs.Laws.{CertifiesIsValid};

/// A certificate is valid by the rules exactly where it is one for the checker.
pub fn certifies_is_valid()
    ensures { CertifiesIsValid }
{}
