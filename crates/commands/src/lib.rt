//! The commands `script`, `offline`, `replay`, `explain` and `check`. Each one exists twice: over
//! bytes and writers (`run_script`, `run_offline` and so on), which is what tests call, and over
//! named files and the standard streams (`script_file`, `offline_file` and so on), which is what
//! the program calls. The contracts of `run_script`, `run_offline`, `run_replay`, `run_explain` and
//! `run_check` state what the output is for each status, as `ScriptTells`, `OfflineTells`,
//! `ReplayTells`, `ExplainTells` and `CheckTells`; `laws` states what a valid file of `check`
//! shows. Start reading at `offline_command`; `exit` has the exit statuses.
#![tactic(auto)]

mod admission;
mod admitted_blocks;
mod check_command;
mod check_verdicts;
mod check_words;
mod exit;
mod explain_command;
mod explained_rows;
mod files;
pub mod laws;
mod offline_command;
mod opening;
mod progress;
mod progress_line;
mod refuting;
mod replay_command;
mod script_command;
mod text;

pub use check_command::{check_files, run_check};
pub use exit::{CommandError, Status, final_status};
pub use explain_command::{cycle_of, explain_named, run_explain};
pub use files::{NamedFile, arguments, read_file};
pub use offline_command::{offline_file, run_offline};
pub use progress::{NoProgress, Progress};
pub use progress_line::ProgressLine;
pub use replay_command::{replay_files, run_replay};
pub use script_command::printing::push_reply;
pub use script_command::reading::{Command, read_script};
pub use script_command::{run_script, script_file};
pub use text::push_refusal;
