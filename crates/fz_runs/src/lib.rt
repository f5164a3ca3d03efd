//! What a whole run prints of a model, by the options. The definitions stand in `specs/`; the promise of the top call cites
//! them.
#![tactic(auto)]
