//! How long the messages of a connection are.

ghost use Rattle.machine.specs.Framing.{IsExtent};

use httparse::spans::EMPTY_HEADER_SPAN;
use sockets::{Extent, Framing, MessageKind};
use wire::{Cut, FIELD_LIMIT, Head, first_head, front_of};

/// The messages of HTTP.
#[derive(Clone, Copy)]
pub(crate) struct Messages;

/// The largest upload whose turn is one of a short message, in bytes.
const SHORT_UPLOAD: u64 = 65_536;

/// What a message moves: the content of a large upload, or of what may be a download. A POST has at most 1 MiB, and a message
/// of another method, which may have a body of any size, is refused at its head.
fn kind_of(method: &[u8], target: &[u8], body: u64) -> MessageKind {
    match method {
        b"GET" if has_content(target) => MessageKind::Download,
        b"GET" | b"POST" => MessageKind::Short,
        _ if body > SHORT_UPLOAD => MessageKind::Upload,
        _ => MessageKind::Short,
    }
}

/// Whether a target may be that of an object.
fn has_content(target: &[u8]) -> bool {
    target
        .windows(9)
        .any(|part| part == b"/content/".as_slice())
}

/// What the bytes begin with: a head with its body, or a part of a head.
fn extent_of(bytes: &[u8]) -> Extent
    ensures { IsExtent bytes.now result }
{
    let mut fields = [EMPTY_HEADER_SPAN; FIELD_LIMIT];
    match first_head(bytes, &mut fields) {
        Cut::Head(spans) => {
            let head = Head::new(front_of(bytes), &fields, spans);
            match head.body_length() {
                Ok(body) => Extent::Message {
                    head: spans.len,
                    body,
                    kind: kind_of(head.method(), head.target(), body),
                },
                Err(_) => Extent::Refused,
            }
        }
        Cut::Bad => Extent::Refused,
        Cut::Unfinished => Extent::Head,
    }
}

impl Framing for Messages {
    fn extent(&self, bytes: &[u8]) -> Extent {
        extent_of(bytes)
    }
}
