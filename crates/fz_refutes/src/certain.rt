//! Certificates exist.
ghost use Rattle.fz_refutes.specs.Certain.{SomeFits, TreeExists, CertExists};

/// Some line of a tree fits a box.
pub fn some_fits()
    ensures { SomeFits }
{}

/// A box has a tree.
pub fn tree_exists()
    ensures { TreeExists }
{}

/// A model whose assignment is best, or that none satisfies, has a certificate.
pub fn cert_exists()
    ensures { CertExists }
{}
