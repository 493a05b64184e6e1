//! The work of the command line: the files that a command reads, programs run on the machine with pages, sessions of the console,
//! the reports behind them, and the answers with their numbers and lines.
#![tactic(auto)]

mod answer;
mod dump;
mod jobs;
mod load;
mod name;
mod programs;
mod refusal;
mod resume;
mod run;
mod saving;
mod session;
mod status;
mod trace;

pub use jobs::{JobsGiven, Together, load_jobs, run_jobs};
pub use load::{Given, Role, load_files, load_options, load_run};
pub use name::Name;
pub use programs::Programs;
pub use refusal::refuse;
pub use resume::{load_saved, resume_run};
pub use run::{begin, prepare, report, run_programs};
pub use saving::{remove_and_report, save_and_report, save_run};
pub use session::hold_session;
pub use status::{Part, Status};
pub use trace::trace_programs;
