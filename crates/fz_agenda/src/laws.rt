//! Laws that the definitions keep: each is the clause of a function that does nothing, so that the clause is proved.
ghost use Rattle.fz_agenda.specs.Agendas.{SettledLasts, AllRestAtRest, ShrinksTwice, MayBeIdle, MayBeGone, MayBeQueued, MayBeTaken};

/// What is settled stays so as the store gets narrower, whoever narrows it.
pub fn settled_lasts()
    ensures { SettledLasts }
{}

/// Where nothing is queued and nothing is marked, every line holds.
pub fn all_rest_at_rest()
    ensures { AllRestAtRest }
{}

/// Narrowing twice is narrowing.
pub fn shrinks_twice()
    ensures { ShrinksTwice }
{}

/// One whose line holds may be idle.
pub fn may_be_idle()
    ensures { MayBeIdle }
{}

/// One whose line holds for good may be gone.
pub fn may_be_gone()
    ensures { MayBeGone }
{}

/// Any may be queued.
pub fn may_be_queued()
    ensures { MayBeQueued }
{}

/// Once all that wait for it are woken, a changed variable may be taken from the list.
pub fn may_be_taken()
    ensures { MayBeTaken }
{}
