//! Laws that the definitions keep.
ghost use Rattle.fz_check.specs.Fits.{ModelsFit};

/// The model of a program that keeps all rules is one.
pub fn models_fit()
    ensures { ModelsFit }
{}
