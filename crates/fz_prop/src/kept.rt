//! What one propagator keeps.
ghost use Rattle.std.specs.Prelude.{◌≡◌};
ghost use Rattle.fz_prop.specs.Told.{nothing, owned};

/// Two places and a number, and whose they are. What they are about is told by what the owner says.
#[derive(Clone, Copy)]
pub struct Kept {
    /// The place of the propagator that keeps them.
    pub owner: u32,
    pub number: i64,
    pub front: u32,
    pub back: u32,
}

impl Kept {
    /// Nothing is kept.
    pub fn none() -> Kept
        ensures { result ≡ nothing }
    {
        Kept {
            owner: 0,
            number: 0,
            front: 0,
            back: 0,
        }
    }

    /// The same, kept by another propagator.
    pub fn owned(self, owner: u32) -> Kept
        ensures { result ≡ owned owner self }
    {
        Kept { owner, ..self }
    }
}
