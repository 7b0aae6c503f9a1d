//! A whole message that is in memory, read before it is answered.

ghost use Rattle.std.specs.Prelude.{◌≡◌, ◌<◌, ◌≤◌, ℕ, List, MatchOption, length, take};
ghost use Rattle.httparse.specs.Grammar.{RequestHead};
ghost use Rattle.model.specs.Stream.{BeginsWithHead};
ghost use Rattle.wire.specs.Fields.{Shows};
ghost use Rattle.service.specs.Reading.{IsReadAs};
ghost use Rattle.service.specs.declared.reading.MessageFault.TheVariants as fault;

use crate::message::{Asked, HeadFault, read_head, read_request};
use forms::Request;
use httparse::spans::EMPTY_HEADER_SPAN;
use names::{LARGEST_OBJECT, Rule};
use routes::Routes;
use std::alloc::{AllocError, Global};
use thiserror::Error;
use wire::{Cut, FIELD_LIMIT, HEAD_LIMIT, Head, first_head, front_of};

/// The number of bytes of the longest message: no message is longer.
pub const LONGEST_MESSAGE: u64 = HEAD_LIMIT as u64 + LARGEST_OBJECT;

/// A whole message that no rule from H1 to J4 refuses.
#[derive(Debug, Drop)]
pub struct Message<'a> {
    /// What its head asks.
    pub asked: Asked,
    /// The request that its head and its body make.
    pub request: Request,
    /// Its body: the content of an upload, or the JSON text of a request; may be empty.
    pub body: &'a [u8],
}

/// Why bytes hold no such message.
#[derive(Clone, Copy, Debug, PartialEq, Eq, Error)]
pub enum MessageFault {
    /// They end before the message does.
    #[error("the message is not whole")]
    Cut,
    /// The first of the rules H1 to H8 and J1 to J4 that refuses the message at their front.
    #[error("{0}")]
    Refused(Rule),
    /// Memory ran out.
    #[error("no memory")]
    Memory,
}

impl From<HeadFault> for MessageFault {
    ghost use Rattle.service.specs.Reading.{fault_of};

    ghost from_gives = { λ fault result. result ≡ fault_of fault };

    fn from(fault: HeadFault) -> MessageFault {
        match fault {
            HeadFault::Denied(denied) => MessageFault::Refused(denied.rule.rule()),
            HeadFault::Memory => MessageFault::Memory,
        }
    }
}

impl From<AllocError> for MessageFault {
    ghost from_gives = { λ _ result. result ≡ fault.Memory };

    fn from(_error: AllocError) -> MessageFault {
        MessageFault::Memory
    }
}

/// The body of this size at the front of the bytes; `None` if there are fewer.
fn body_in(bytes: &[u8], size: u64) -> Option<&[u8]>
    ensures { MatchOption result (length bytes.now < size)
        (λ body. (body.now ≡ take size bytes.now) × (size ≤ length bytes.now)) }
{
    if size > bytes.len() as u64 {
        None
    } else {
        Some(&bytes[..size as usize])
    }
}

/// Reads the message of a head, which these bytes follow.
fn message_of<'a>(
    alloc: Global,
    routes: &Routes,
    head: &Head<'_>,
    rest: &'a [u8],
) -> Result<Message<'a>, MessageFault>
    ensures { (bytes : List ℕ) (h : RequestHead) → Shows head.now h
        → BeginsWithHead bytes h rest.now → IsReadAs bytes result }
{
    let asked = read_head(alloc, routes, head)?;
    let Some(body) = body_in(rest, asked.size) else {
        return Err(MessageFault::Cut);
    };
    match read_request(alloc, &asked, body)? {
        Ok(request) => Ok(Message {
            asked,
            request,
            body,
        }),
        Err(rule) => Err(MessageFault::Refused(rule)),
    }
}

/// Reads the message at the front of the bytes, by the rules that come before the token of a request is looked at. The
/// bytes after the message are not read.
///
/// # Errors
///
/// `Cut` if the bytes are a part of a message; `Refused` with the first rule that refuses the message; `Memory`.
pub fn read_message<'a>(
    alloc: Global,
    routes: &Routes,
    bytes: &'a [u8],
) -> Result<Message<'a>, MessageFault>
    ensures { IsReadAs bytes.now result }
{
    let mut fields = [EMPTY_HEADER_SPAN; FIELD_LIMIT];
    match first_head(bytes, &mut fields) {
        Cut::Head(spans) => {
            let head = Head::new(front_of(bytes), &fields, spans);
            message_of(alloc, routes, &head, &bytes[spans.len..])
        }
        Cut::Bad => Err(MessageFault::Refused(Rule::H1)),
        Cut::Unfinished => Err(MessageFault::Cut),
    }
}
