//! A terminal of a PAD (X.3, X.28, X.29), without the packet layer of its call.
//!
//! A `Terminal` has the parameters, the command line, the text that is held to be forwarded and the text that waits to
//! be shown. The PAD hands it keys, breaks, idle times, messages and what becomes of its call, with what it must know
//! of that call; the terminal says what it wants of the PAD: a block to be sent, an answer to a message, a call.
#![tactic(auto)]

mod answers;
mod command_line;
mod mode;
mod output;
mod settings;
mod terminal;

pub use answers::{BreakAnswer, BreakRequests, CallCondition, InputAnswer, Reply, TerminalRequest};
pub use mode::Mode;
pub use output::TEXT_LIMIT;
pub use terminal::Terminal;
