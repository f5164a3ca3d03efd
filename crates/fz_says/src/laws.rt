//! Laws that the definitions keep: each is the clause of a function that does nothing, so that the clause is proved.
ghost use Rattle.fz_says.specs.Checks.{Checks};
ghost use Rattle.fz_says.specs.Fits.{FitSuits, SaidFits};

/// What a model's constraint says fits the model.
pub fn said_fits()
    ensures { SaidFits }
{}

/// What fits a model takes for 0 and 1 what is declared so.
pub fn fit_suits()
    ensures { FitSuits }
{}

/// Where one number is left of each variable, a run has failed if what is said is false, and else it rests.
pub fn checks()
    ensures { Checks }
{}
