//! The pages of a service: what a request asks for, the status as JSON, and the answers.
#![tactic(auto)]

mod answers;
mod hearing;
mod json;
mod page;
mod requests;

pub use answers::answer;
pub use hearing::Hearing;
pub use json::status_json;
pub use page::PAGE;
pub use requests::{LATE, Refusal, Request, Wanted};
