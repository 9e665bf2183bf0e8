//! Replies that write to one sink alone.
ghost use Rattle.std.specs.Prelude.{◌≡◌, true, string_bytes};
ghost use Rattle.ix_replies.specs.Answer.{out_answer, err_answer};
ghost use Rattle.ix_replies.specs.Replies.{shown};
ghost use Rattle.ix_replies.specs.Statuses.{is_reply};

use crate::status::Status;
use crate::written_reply::Reply;
use std::alloc::Global;

/// A reply that writes to `out` alone.
pub fn on_out(alloc: Global, status: Status, out: String) -> Reply
    requires { is_reply status ≡ true }
    ensures { shown result ≡ out_answer status (string_bytes out) }
{
    on_bytes(alloc, status, out.into_bytes())
}

/// A reply that writes these bytes to `out` alone.
pub fn on_bytes(alloc: Global, status: Status, out: Vec<u8>) -> Reply
    requires { is_reply status ≡ true }
    ensures { shown result ≡ out_answer status out.items }
{
    Reply {
        status,
        out,
        err: String::new(alloc),
    }
}

/// A reply that writes to `err` alone.
pub fn on_err(alloc: Global, status: Status, err: String) -> Reply
    requires { is_reply status ≡ true }
    ensures { shown result ≡ err_answer status (string_bytes err) }
{
    Reply {
        status,
        out: Vec::new(alloc),
        err,
    }
}
