//! The reply to a request.

use crate::report_reply::ReportReply;
use trace_model::Reply;

/// A reply, whose report may not be in memory.
#[derive(Drop)]
pub enum Answered {
    Whole(Reply),
    Report(ReportReply),
}
