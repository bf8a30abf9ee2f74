//! How the program plays a script: what a command line orders, a replay, or a run with a thread for each speaker. The
//! threads share a hall under a lock, and a gate says when a line may be played.
#![tactic(auto)]

pub mod free;
pub mod gate;
pub mod in_turn;
pub mod opening;
pub mod order;
pub mod playing;
pub mod report;
pub mod running;
pub mod seat;
pub mod shared;
pub mod working;

pub use ada_hall::{Answer, Asked, Asking, Hall, Told};
pub use ada_replay::{Ending, RunFault, replay, status_of};
pub use free::Free;
pub use gate::Gate;
pub use in_turn::InTurn;
pub use opening::open_hall;
pub use order::{Order, order_of};
pub use playing::play;
pub use report::Report;
pub use running::{read_and_run, run};
pub use seat::Seat;
pub use shared::Shared;
pub use working::work;
