//! Laws that the definitions keep: each is the clause of a function that does nothing, so that the clause is proved.
ghost use Rattle.fz_branch.specs.Keeping.{AllKeepValues};

/// Of a domain with more than one value left each alternative keeps a value.
pub fn all_keep_values()
    ensures { AllKeepValues }
{}
