//! Laws of replies and of runs, for proofs about any reader of them. The functions do nothing.
//!
//! For each relation that the contracts of `craig_top` and `Session::answer` reach there is a law here that says what
//! each of its parts means, in words that don't use the relation: of truth, clauses, bytes and lists.

mod circuits;
mod cuts;
mod generated;
mod lines;
mod models;
mod refutations;
mod replies;
mod runs;
mod solver_words;

pub use circuits::{literals_of_a_circuit, strict_circuits};
pub use cuts::{failed_assumptions, interpolants_at_cuts, nothing_left};
pub use generated::{generated_replies, generated_runs, summaries};
pub use lines::{lines_of_a_script, words_of_commands};
pub use models::literals_of_a_model;
pub use refutations::{
    clauses_along_a_chain, resolvents, steps_of_a_refutation, steps_of_the_last_root,
    values_from_one_refutation,
};
pub use replies::{
    contents_of_a_refutation, interpolants_of_a_refutation, labels_of_marks, printed_literals,
    replies_to_lines, states_after_lines, systems_of_words, texts_of_circuits,
    three_systems_by_strength,
};
pub use runs::{bytes_taken, replies_of_a_transcript, replies_put, runs_end_done};
pub use solver_words::words_of_the_solver;
