//! Request and reply frames: requests from bytes that arrive in pieces, requests as bytes, and
//! replies as bytes.
//!
//! [`FrameReader`] is the reader. Its contract: the requests and the fault that it returns are
//! those of the whole text, however the text was cut into pieces. Start reading at
//! [`FrameReader::next`]; [`encode_reply`] is the other direction.
#![tactic(auto)]

mod cells;
mod leading;
mod reader;
mod replies;
mod requests;

pub use reader::FrameReader;
pub use replies::{encode_head, encode_reply, frame_text, push_reply, report_head};
pub use requests::{answer_frame, ask_frame, batch_frame, offer_frame, status_frame};
