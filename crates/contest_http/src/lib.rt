//! The desk over HTTP/1.1 (RFC 9112): the bytes of one request in, the bytes of its reply out.
#![tactic(auto)]

mod body;
mod credentials;
mod fields;
mod framed;
mod head;
mod head_buffer;
pub mod laws;
mod method;
mod parsing;
mod plan;
mod reply;
mod reply_head;
mod request;
mod serving;
mod target;

pub use framed::{Framed, ServeFault, Served};
pub use reply::write_reply;
pub use request::read_request;
pub use serving::serve_one;
