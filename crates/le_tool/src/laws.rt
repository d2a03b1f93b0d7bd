ghost use Rattle.le_tool.specs.Certified.{CertifiedAccepted};

/// What `certify` writes of an accepted document that ends with LF is a bundle with the same document, names and
/// limits, and `check` accepts each of its derivations, with status 0: where there are at most 2^32 constants and
/// predicates, the line at which the search ends has a number of 32 bits, and the bundle isn't too long. It does
/// nothing.
pub fn certified_accepted()
    ensures { CertifiedAccepted }
{}
