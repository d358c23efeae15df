//! What commands share: what words may ask of one, what it loads from a shelf, why it is refused, pieces of texts,
//! audited traces, what a run hands out, and what a command comes to.
#![tactic(auto)]

mod audit_text;
mod auditing;
mod conclusion;
mod counts_line;
mod description;
mod direction;
mod fault_line;
mod faulted;
mod flaw;
mod inputs;
mod list_text;
mod option_fault;
mod outputs;
mod parameters;
mod pieces;
mod refusal;
mod report_text;
mod run_request;
mod sources;
mod stream_request;
mod table;
mod tables;
mod teller;
mod telling;
mod trace_bytes;

pub use audit_text::text_of_audit;
pub use auditing::{Audited, Finding, audit_trace, load_audited};
pub use conclusion::{Conclusion, OutputFile};
pub use counts_line::summary;
pub use description::load_document;
pub use direction::Direction;
pub use faulted::{has_fault, is_faulted, push_faulted};
pub use flaw::Flaw;
pub use inputs::{Inputs, RunInputs, load_inputs};
pub use list_text::push_list;
pub use outputs::{FileWords, check_outputs, prepare};
pub use parameters::parameters_of;
pub use pieces::{Pushed, push_number};
pub use refusal::Refusal;
pub use report_text::{push_faults, push_waits, status_of, text_of_report, wanted_of, word_of};
pub use run_request::{QUOTA, RunRequest};
pub use sources::{EndKind, FileOption, NamedEnd, ends_of, file_for, options_of};
pub use stream_request::StreamRequest;
pub use table::{TableRow, TextTable};
pub use tables::StatsTables;
pub use teller::Teller;
pub use telling::{put, put_more};
pub use trace_bytes::{store_trace, trace_of};
