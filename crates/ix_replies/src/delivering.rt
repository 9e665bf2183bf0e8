//! Writing replies.
ghost use Rattle.std.specs.Prelude.{◌≡◌, ◌≤◌};
ghost use Rattle.ix_outside.specs.Outside.{Took, TookPrefix};
ghost use Rattle.ix_replies.specs.Answer.{out_of_memory};
ghost use Rattle.ix_replies.specs.Delivery.{Delivers, sinks};
ghost use Rattle.ix_replies.specs.Replies.{Says, shown};

use crate::status::Status;
use crate::written_reply::Reply;
use ix_outside::{Sink, WriteError, write_all};
use std::alloc::AllocError;

/// Says on `err` that memory was wanting, where that can be written.
pub fn wanting<E: Sink>(err: &mut E) -> Status
    ensures { record {
      status : result ≡ Status.Memory;
      whole : E.refused err.new ≡ E.refused err.old → Took out_of_memory (E.taken err.old) (E.taken err.new);
      refused : E.refused err.old ≤ E.refused err.new;
      falls : E.faults err.old ≤ E.faults err.new;
      err : TookPrefix out_of_memory (E.taken err.old) (E.taken err.new);
    } }
{
    let _ = write_all(err, b"out of memory\n");
    Status::Memory
}

/// Writes a reply.
fn deliver<K: Sink, E: Sink>(reply: &Reply, out: &mut K, err: &mut E) -> Status
    ensures { Delivers (λ answer. answer ≡ shown reply.now) result (sinks (K.taken out.old) (K.faults out.old) (E.taken err.old) (E.faults err.old) (E.refused err.old))
        (sinks (K.taken out.new) (K.faults out.new) (E.taken err.new) (E.faults err.new) (E.refused err.new)) }
{
    match write_all(out, reply.out.as_slice()) {
        Ok(()) => match write_all(err, reply.err.as_bytes()) {
            Ok(()) => reply.status,
            Err(WriteError::Failed) => Status::WriteFault,
            Err(WriteError::Memory) => Status::Memory,
        },
        Err(WriteError::Failed) => Status::WriteFault,
        Err(WriteError::Memory) => wanting(err),
    }
}

/// Writes a reply, or says that memory was wanting for it.
pub fn say<K: Sink, E: Sink>(reply: Result<Reply, AllocError>, out: &mut K, err: &mut E) -> Status
    ensures { Delivers (Says reply) result (sinks (K.taken out.old) (K.faults out.old) (E.taken err.old) (E.faults err.old) (E.refused err.old))
        (sinks (K.taken out.new) (K.faults out.new) (E.taken err.new) (E.faults err.new) (E.refused err.new)) }
{
    match reply {
        Ok(reply) => deliver(&reply, out, err),
        Err(_) => wanting(err),
    }
}
