//! The maker of certificates: their lines one after another, none of them held. A box gets the first line that fits it. A sink takes
//! them one by one.
#![tactic(auto)]

pub mod certify;
mod fit;
mod make;
pub mod maker;

pub use certify::print_certificate;
pub use maker::Maker;
