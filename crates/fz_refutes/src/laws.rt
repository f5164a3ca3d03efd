//! Laws that the definitions keep: each is the clause of a function that does nothing, so that the clause is proved.
ghost use Rattle.fz_refutes.specs.Laws.{RefutedHasNone, BestIsProved, NoneIsProved, ProvingShows, CertProves, CertIsOne, LinesAreChecked, CheckedIsRefuted};
ghost use Rattle.fz_refutes.specs.Makers.{SomeIsOpen, FitsBefore, FitsShorten, TreesCertify};

/// Where a tree refutes a box, no assignment in the box satisfies and betters the head.
pub fn refuted_has_none()
    ensures { RefutedHasNone }
{}

/// A proof with an assignment shows that it is best.
pub fn best_is_proved()
    ensures { BestIsProved }
{}

/// A proof without one shows that none satisfies.
pub fn none_is_proved()
    ensures { NoneIsProved }
{}

/// An output that proves shows that the assignment of its head is best, or that none satisfies.
pub fn proving_shows()
    ensures { ProvingShows }
{}

/// The certificate of a model proves.
pub fn cert_proves()
    ensures { CertProves }
{}

/// There is one certificate at most.
pub fn cert_is_one()
    ensures { CertIsOne }
{}

/// The lines of a tree that refutes a box refute it line by line.
pub fn lines_are_checked()
    ensures { LinesAreChecked }
{}

/// What is refuted line by line is refuted by a tree of these lines.
pub fn checked_is_refuted()
    ensures { CheckedIsRefuted }
{}

/// Where no other line fits a box, several numbers are left of some variable.
pub fn some_is_open()
    ensures { SomeIsOpen }
{}

/// A line that fits the first of some boxes, before the lines of trees of the boxes that it leaves, is of trees of them all.
pub fn fits_before()
    ensures { FitsBefore }
{}

/// After a line that fits fewer lines can come.
pub fn fits_shorten()
    ensures { FitsShorten }
{}

/// The lines of the tree of the declared sets make the certificate.
pub fn trees_certify()
    ensures { TreesCertify }
{}
