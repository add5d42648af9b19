//! The definitions that the contracts of several crates cite, in the terms of the field.
//!
//! Nothing here runs: the definitions stand in `specs/`, one file a subject, and `docs/DEFINITIONS.md` has
//! each of them in words. What speaks of a crate's own types stands in that crate's `specs/`.
#![tactic(auto)]
