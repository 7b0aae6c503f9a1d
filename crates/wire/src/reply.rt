//! The head of a reply (RFC 9112, Message Format; Git LFS API, Authentication).
//!
//! It needs no memory: the head is written into a buffer of a fixed size, which holds the longest head.

ghost use Rattle.std.specs.Prelude.{◌≡◌, ◌+◌, ◌≤◌, ◌<◌, ◌++◌, ◌==◌, length, codes, decimal, not};
ghost use Rattle.arrayvec.specs.ArrayString.{array_string_len};
ghost use Rattle.model.specs.Replies.{line, line_if, phrases, phrase_in};
ghost use Rattle.wire.specs.Replies.{type_of};
ghost use Rattle.names.specs.Texts.{is_empty};

use arrayvec::ArrayString;
use http::StatusCode;
use itoa::Buffer;
use names::ALLOW_LIMIT;

/// Room for the longest head.
pub(crate) const HEAD_ROOM: usize = 512;

/// The kind of a reply's body.
#[derive(Clone, Copy, Debug, PartialEq, Eq)]
pub enum Content {
    /// JSON of the Git LFS API: `application/vnd.git-lfs+json`.
    Json,
    /// The bytes of an object: `application/octet-stream`.
    Octets,
    /// No body, and no `Content-Type`.
    Empty,
}

/// The head of a reply.
#[derive(Clone, Copy, Debug, PartialEq, Eq)]
pub struct ReplyHead<'a> {
    /// The status. Its phrase is that of RFC 9110, or empty for a status that the server never sends.
    pub status: StatusCode,
    /// The kind of the body.
    pub content: Content,
    /// The size of the body in bytes: `Content-Length`.
    pub size: u64,
    /// The methods that the route serves, if the request had another method; else empty, and then the
    /// head has no `Allow`.
    pub allow: &'a str,
    /// Whether the server closes the connection after the reply.
    pub close: bool,
}

impl ReplyHead<'_> {
    ghost use Rattle.std.specs.Prelude.{◌≡◌, ◌≤◌, length};
    ghost use Rattle.wire.specs.Replies.{head_of};

    /// The lines of the head, and the empty line that ends it.
    pub(crate) fn text(&self) -> ArrayString<HEAD_ROOM>
        requires { length self.now.allow.now ≤ ALLOW_LIMIT }
        ensures { result.bytes ≡ head_of self.now }
    {
        let mut text = ArrayString::new();
        push_status(&mut text, self.status);
        push_type(&mut text, self.content);
        push_length(&mut text, self.size);
        push_line_if(&mut text, !self.allow.is_empty(), "Allow: ", self.allow);
        push_line_if(
            &mut text,
            is_challenge(self.status),
            "LFS-Authenticate: Bearer realm=\"Git LFS\"",
            "",
        );
        push_line_if(&mut text, self.close, "Connection: close", "");
        text.push_str("\r\n");
        text
    }
}

/// Whether the reply asks for a token.
fn is_challenge(status: StatusCode) -> bool
    ensures { result ≡ (status == 401) }
{
    status.as_u16() == 401
}

/// The phrase of a status (RFC 9110, Status Codes; 507: RFC 4918). The crate `http` has older ones for 413 and 422.
fn phrase_of(status: StatusCode) -> &'static str
    ensures phrase { result.now ≡ phrase_in phrases status }
    ensures short { length result.now ≤ 32 }
{
    match status.as_u16() {
        200 => "OK",
        201 => "Created",
        400 => "Bad Request",
        401 => "Unauthorized",
        403 => "Forbidden",
        404 => "Not Found",
        405 => "Method Not Allowed",
        406 => "Not Acceptable",
        409 => "Conflict",
        410 => "Gone",
        411 => "Length Required",
        413 => "Content Too Large",
        422 => "Unprocessable Content",
        500 => "Internal Server Error",
        501 => "Not Implemented",
        507 => "Insufficient Storage",
        _ => "",
    }
}

/// Adds a line: a name with its colon, and a value.
fn push_line(text: &mut ArrayString<HEAD_ROOM>, name: &str, value: &str)
    requires { array_string_len text.old + (length name.now + length value.now) + 2 ≤ HEAD_ROOM }
    ensures bytes { text.new.bytes ≡ text.old.bytes ++ line (name.now ++ value.now) }
    ensures len { array_string_len text.new
        ≡ array_string_len text.old + (length name.now + length value.now) + 2 }
{
    text.push_str(name);
    text.push_str(value);
    text.push_str("\r\n");
}

/// Adds a line, if `wanted`.
fn push_line_if(text: &mut ArrayString<HEAD_ROOM>, wanted: bool, name: &str, value: &str)
    requires { array_string_len text.old + (length name.now + length value.now) + 2 ≤ HEAD_ROOM }
    ensures bytes { text.new.bytes ≡ text.old.bytes ++ line_if wanted (name.now ++ value.now) }
    ensures len { array_string_len text.new
        ≤ array_string_len text.old + (length name.now + length value.now) + 2 }
{
    if wanted {
        push_line(text, name, value);
    }
}

/// Adds the line of the type, if the reply has a body.
fn push_type(text: &mut ArrayString<HEAD_ROOM>, content: Content)
    requires { array_string_len text.old + 48 ≤ HEAD_ROOM }
    ensures bytes { text.new.bytes ≡ text.old.bytes ++ type_of content }
    ensures len { array_string_len text.new ≤ array_string_len text.old + 48 }
{
    match content {
        Content::Json => push_line(text, "Content-Type: ", "application/vnd.git-lfs+json"),
        Content::Octets => push_line(text, "Content-Type: ", "application/octet-stream"),
        Content::Empty => {}
    }
}

/// Adds the line of the status.
fn push_status(text: &mut ArrayString<HEAD_ROOM>, status: StatusCode)
    requires { array_string_len text.old + 64 ≤ HEAD_ROOM }
    ensures bytes { text.new.bytes ≡ text.old.bytes
        ++ line (codes "HTTP/1.1 " ++ decimal status ++ codes " " ++ phrase_in phrases status) }
    ensures len { array_string_len text.new ≤ array_string_len text.old + 64 }
{
    let mut buffer = Buffer::new();
    text.push_str("HTTP/1.1 ");
    text.push_str(buffer.format(status.as_u16()));
    push_line(text, " ", phrase_of(status));
}

/// Adds the line of the length.
fn push_length(text: &mut ArrayString<HEAD_ROOM>, size: u64)
    requires { array_string_len text.old + 64 ≤ HEAD_ROOM }
    ensures bytes { text.new.bytes
        ≡ text.old.bytes ++ line (codes "Content-Length: " ++ decimal size) }
    ensures len { array_string_len text.new ≤ array_string_len text.old + 64 }
{
    let mut buffer = Buffer::new();
    push_line(text, "Content-Length: ", buffer.format(size));
}
