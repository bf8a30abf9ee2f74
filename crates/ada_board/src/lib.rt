//! The attributes of tasks and entries (Ada 83 manual, 9.9) for readers that take no lock.
//!
//! A writer publishes whole boards, and each reader answers from the board of a true list: boards that one
//! lawful journal showed, each at a settled time, in their order. The list begins with all that this reader
//! has seen and was told of, so its answers never go back.
//!
//! ```text
//! let (mut writer, mut places) = open_board::<J, R>(rt, alloc, history, 2)?;
//! let mut reader = places.take()?;
//! writer.offer(kernel.board())?;          // of a journal that is lawful and settled
//! writer.show(rt);
//! reader.learn(writer.mark());
//! let callable = reader.callable(TaskNo(1));
//! writer.close(rt);
//! ```
#![tactic(auto)]

pub mod answers;
pub mod edition;
pub mod fault;
pub mod history;
pub mod mark;
pub mod opening;
pub mod publishing;
pub mod reader;
pub mod shown;
pub mod told;
pub mod writer;

pub use fault::BoardFault;
pub use history::{History, Naming};
pub use mark::Mark;
pub use opening::{Readers, open_board};
pub use reader::BoardReader;
pub use writer::BoardWriter;
