//! The book: the machine of the specification. It keeps one trace, which grows by lawful events,
//! and the questions about prefixes of it. [`Book::prepare`] tests a request and makes every
//! allocation; [`Book::commit`] carries it out and does not allocate. The main contract is
//! [`play`]: for every list of pieces of bytes, ends of sessions and findings, each session is sent
//! exactly the machine's replies. Start reading at `book`, then `step`.
#![tactic(auto)]

mod answered;
mod answering;
mod asking;
mod batching;
mod book;
mod calls;
mod delivering;
mod input;
mod playing;
mod question_state;
mod recorder;
mod replies;
mod report_reply;
mod row_text;
mod sharing;
mod step;

pub use answered::Answered;
pub use answering::{Answer, AnswerRefused, SettledQuestion, SharedAnswer};
pub use asking::{AskRefused, Opened};
pub use batching::Batched;
pub use book::{Book, BookRefused, NoSuchQuestion};
pub use calls::Calls;
pub use delivering::Delivered;
pub use input::{Input, MAX_PLAYED, Session};
pub use playing::{PlayRefused, Played, play};
pub use question_state::QuestionState;
pub use report_reply::ReportReply;
pub use reports::Piece;
pub use row_text::RowText;
pub use step::{Change, Step};
