//! What the program `xns` is asked to do, the command that does it, and the status that it ends with. How the words of
//! its command line are read stands in `xns`.
#![tactic(auto)]

mod commands;
mod description_fault;
mod descriptions;
mod files;
mod job;
mod mode;
mod refusal;
mod status;

pub use commands::perform;
pub use description_fault::DescriptionFault;
pub use descriptions::{print_description, read_description, take_description};
pub use files::perform_file;
pub use job::Job;
pub use mode::Mode;
pub use refusal::Refusal;
pub use status::{answer_status, description_status, refusal_status};
