//! Replies, before they are written.
ghost use Rattle.std.specs.Prelude.{◌≡◌, true};
ghost use Rattle.ix_replies.specs.Statuses.{is_reply};

use crate::status::Status;

/// A status, which doesn't speak of the writing of the reply itself, with the texts of both sinks.
#[derive(Drop)]
pub struct Reply {
    pub status: Status,
    pub out: Vec<u8>,
    pub err: String,
    ghost is_reply: { is_reply status ≡ true },
}
