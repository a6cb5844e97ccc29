//! Sessions: the loop that reads requests from a source, has them answered, and writes the replies
//! to a sink. The main contract is [`serve`]: what is written is the replies to exactly the
//! requests that were read, in order, and then the fault if there is one. Start reading at `ends`,
//! then `serving`.
#![tactic(auto)]

mod books;
mod counting;
mod ends;
mod memory;
mod serving;
mod streams;

pub use books::serve_book;
pub use counting::count_failure;
pub use ends::{Sink, Source, TransferFailed};
pub use memory::{MemorySink, MemorySource};
pub use serving::{Ended, ServeFault, serve};
pub use streams::{ReadSource, WriteSink};
