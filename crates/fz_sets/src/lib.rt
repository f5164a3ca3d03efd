//! Sets of whole numbers as lists of ranges, and the limits of numbers (Gecode's `Int::Limits`). The definitions stand in
//! `specs/`; domains, variables and models speak of them.
#![tactic(auto)]
