//! What holds of each generated text.
ghost use Rattle.fz_gen.specs.Laws.{EachIsAccepted};

/// Each generated text is accepted, and the goal of its model is to maximize the last variable.
pub fn each_is_accepted()
    ensures { EachIsAccepted }
{}
