//! Laws of texts of certificates. Each is a function that does nothing; its contract is the law.

ghost use Rattle.certificate_grammar.specs.Laws.{CertificatesAreBlocks};

/// A text is one of certificates for these conditions exactly where it holds a valid block for each of them.
pub fn certificates_are_blocks()
    ensures { CertificatesAreBlocks }
{}
