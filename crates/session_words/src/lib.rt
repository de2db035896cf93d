//! Messages of the Language Server Protocol: what the client asks and tells, and how it is answered.
#![tactic(auto)]

mod body;
mod change;
mod escapes;
mod facts;
mod member;
mod message;
mod reply;

pub use body::body_value;
pub use change::{TextChange, change_in, changed_text};
pub use facts::{Facts, facts_in};
pub use member::{
    document_of, integer_of, member_of, number_of, place_of, uri_of, version_of, word_of,
};
pub use message::{Id, Message, message_in};
pub use reply::{Diagnostic, Refusal, Reply, reply_body};
