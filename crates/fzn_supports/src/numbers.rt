//! The numbers of a variable, and the sets of these that it is declared with.
ghost use Rattle.std.specs.Prelude.{◌<◌};
ghost use Rattle.fz_sets.specs.Sets.{IsWithinLimits};

use std::alloc::{AllocError, Global};

/// The numbers that a variable may have.
#[derive(Clone, Copy)]
pub enum Numbers {
    /// -2 to 1.
    Signed,
    /// 0 to 3.
    Counting,
    /// 0 to 6.
    Seven,
    /// 0 and 1, of a Boolean.
    Boolean,
    /// 0 alone.
    Zero,
    /// The least and the greatest of all, -1 and 2.
    Far,
}

/// A declaration of a variable, and the numbers that it leaves it.
#[derive(Drop)]
pub struct Declared {
    pub text: String,
    pub numbers: Vec<i32>,
}

impl Numbers {
    /// The number at a place, where the least one stands at place 0.
    pub fn at(self, place: u8) -> i32
        ensures { IsWithinLimits result }
    {
        match self {
            Numbers::Signed => i32::from(place) - 2,
            Numbers::Counting | Numbers::Seven | Numbers::Boolean | Numbers::Zero => {
                i32::from(place)
            }
            Numbers::Far => match place {
                0 => -2_147_483_646,
                1 => -1,
                2 => 2,
                _ => 2_147_483_646,
            },
        }
    }

    /// How many places have the numbers, and maybe others after them.
    pub fn places(self) -> u8 {
        match self {
            Numbers::Seven => 7,
            _ => 4,
        }
    }

    /// How many sets of these numbers there are.
    fn sets(self) -> u8 {
        match self {
            Numbers::Signed | Numbers::Counting | Numbers::Far => 16,
            Numbers::Seven => 128,
            Numbers::Boolean => 4,
            Numbers::Zero => 2,
        }
    }

    /// All declarations of a variable of some of these numbers, one at least.
    pub fn declarations(self, alloc: Global, name: &str) -> Result<Vec<Declared>, AllocError> {
        let mut declarations = Vec::new(alloc);
        for set in 1..self.sets() {
            declarations.push(self.declaration(alloc, name, set)?)?;
        }
        Ok(declarations)
    }

    /// The declaration of a variable of a set, which has the number at a place where it has that bit.
    fn declaration(self, alloc: Global, name: &str, set: u8) -> Result<Declared, AllocError> {
        let mut numbers = Vec::new(alloc);
        for place in 0..7 {
            if (set >> place) & 1 == 1 {
                numbers.push(self.at(place))?;
            }
        }
        let text = match self {
            Numbers::Boolean => boolean(alloc, name, &numbers)?,
            _ => integer(alloc, name, &numbers)?,
        };
        Ok(Declared { text, numbers })
    }
}

/// The declaration of a Boolean of these numbers.
fn boolean(alloc: Global, name: &str, numbers: &[i32]) -> Result<String, AllocError> {
    match numbers {
        [0] => format!(in alloc; "var bool: {name} = false;"),
        [1] => format!(in alloc; "var bool: {name} = true;"),
        _ => format!(in alloc; "var bool: {name};"),
    }
}

/// The declaration of an integer of these numbers.
fn integer(alloc: Global, name: &str, numbers: &[i32]) -> Result<String, AllocError> {
    let mut set = String::new(alloc);
    for number in numbers {
        if !set.is_empty() {
            set.push_str(",")?;
        }
        write!(set, "{number}")?;
    }
    format!(in alloc; "var {{{set}}}: {name};")
}
