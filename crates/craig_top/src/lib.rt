//! The session, which answers a script line by line, and the top call of the program.
//!
//! `craig_top` reads the words and calls `run_script`, which takes bytes from a source, cuts them into lines, and
//! puts the reply of a `Session` to each line to a sink. The contract of `craig_top` is the transcript theorem: what
//! was put is made of allowed replies, one for each line, and each way in which a run can end says which lines these
//! are. A `solve` is answered by the incremental solver of `craig_solver`: with a model, or with failed assumptions and
//! the interpolants of the chosen cuts by the systems that are set, which `craig_itp` draws from the kept refutation and
//! `craig_aiger` or `craig_cnf` writes as one circuit.
#![tactic(auto)]

mod assumptions;
mod choices;
mod clause;
mod generated;
mod greatest;
pub mod laws;
mod lemmas;
mod material;
mod model;
mod refutation;
mod reply;
mod run;
mod session;
mod settings;
mod sides;
mod status;
mod stored;
mod top_call;
mod verdict;

pub use generated::run_generated;
pub use run::run_script;
pub use session::Session;
pub use settings::Settings;
pub use status::Status;
pub use top_call::craig_top;
