//! Reads the head of a message from the bytes that hold it.

ghost use Rattle.std.specs.Prelude.{◌≡◌, option_map, count_by, find};
ghost use Rattle.wire.specs.Fields.{bytes_of_span, is_named, is_close, lists_close, is_closing_field};

use crate::ows::trim_ows;
use httparse::spans::{HeaderSpan, RequestSpans, Span};

/// The head of a message: its method, its target and its fields.
///
/// Nothing is copied: the texts that it returns are slices of the bytes of the stream.
#[derive(Clone, Copy, Debug)]
pub struct Head<'a> {
    bytes: &'a [u8],
    fields: &'a [HeaderSpan],
    spans: RequestSpans,
}

impl<'a> Head<'a> {
    ghost use Rattle.std.specs.Prelude.{◌≡◌, ◌==◌, length, option_map};
    ghost use Rattle.std.specs.List.{list_any};
    ghost use Rattle.httparse.specs.Grammar.{RequestHead};
    ghost use Rattle.model.specs.Orders.{first};
    ghost use Rattle.model.specs.Heads.{values, asks_close};
    ghost use Rattle.wire.specs.Cut.{Covers};
    ghost use Rattle.wire.specs.Fields.{Shows, head_bytes, field_spans, is_closing_field};

    /// Makes a `Head` from the result of [`first_head`](crate::first_head): `bytes` is [`front_of`](crate::front_of)
    /// the stream, `fields` holds the spans that it wrote, and `spans` is its result.
    pub fn new(bytes: &'a [u8], fields: &'a [HeaderSpan], spans: RequestSpans) -> Self
        ensures { (head : RequestHead) → Covers bytes.now fields.now spans head
            → Shows result head }
    {
        Head {
            bytes,
            fields,
            spans,
        }
    }

    /// Returns the method, as `POST`. Methods are compared byte by byte (RFC 9110, Methods).
    pub fn method(&self) -> &'a [u8]
        ensures { (head : RequestHead) → Shows self.now head → result.now ≡ head.method }
    {
        bytes_of_span(self.bytes, self.spans.method)
    }

    /// Returns the target: a path, and perhaps a query after a question mark. It is UTF-8, and not decoded.
    pub fn target(&self) -> &'a [u8]
        ensures { (head : RequestHead) → Shows self.now head → result.now ≡ head.target }
    {
        bytes_of_span(self.bytes, self.spans.path)
    }

    /// Whether the version is HTTP/1.0. The only other version is HTTP/1.1.
    pub fn is_http_1_0(&self) -> bool
        ensures { (head : RequestHead) → Shows self.now head → result ≡ (head.minor == 0) }
    {
        self.spans.version == 0
    }

    /// Returns the number of fields with that name. Names are compared without regard to ASCII case
    /// (RFC 9110, Field Names).
    pub fn count(&self, name: &str) -> usize
        ensures { (head : RequestHead) → Shows self.now head → result
            ≡ length (values name.now head) }
    {
        count_of(self.bytes, self.field_spans(), name)
    }

    /// Returns the value of the first field with that name, without the white space around it; `None` if
    /// the head has no such field.
    pub fn first(&self, name: &str) -> Option<&'a [u8]>
        ensures { (head : RequestHead) → Shows self.now head → option_map (λ v. v.now) result
            ≡ first (values name.now head) }
    {
        match first_of(self.bytes, self.field_spans(), name) {
            Some(field) => Some(bytes_of_span(self.bytes, field.value)),
            None => None,
        }
    }

    /// Whether the connection is to end after the message: the version is HTTP/1.0, or one of the
    /// `Connection` fields lists `close` (RFC 9112, Tear-down; RFC 9110, Connection).
    pub fn asks_close(&self) -> bool
        ensures { (head : RequestHead) → Shows self.now head → result ≡ asks_close head }
    {
        self.is_http_1_0() || self.lists_close()
    }

    /// Whether a `Connection` field lists `close`.
    fn lists_close(&self) -> bool
        ensures { result
            ≡ list_any (is_closing_field (head_bytes self.now)) (field_spans self.now) }
    {
        self.field_spans()
            .iter()
            .any(|field| is_closing_field(self.bytes, field))
    }

    /// The spans of the head's own fields, without the unused rest.
    fn field_spans(&self) -> &'a [HeaderSpan]
        ensures { result.now ≡ field_spans self.now }
    {
        self.fields.get(..self.spans.headers).unwrap_or(self.fields)
    }
}

/// The bytes that the span covers; empty if it reaches past the end.
fn bytes_of_span(bytes: &[u8], span: Span) -> &[u8]
    ensures { result.now ≡ bytes_of_span bytes.now span }
{
    bytes.get(span.start..span.end).unwrap_or(&[])
}

/// Whether the field has that name, in any case.
fn is_named(bytes: &[u8], field: &HeaderSpan, name: &str) -> bool
    ensures { result ≡ is_named bytes.now name.now field.now }
{
    bytes_of_span(bytes, field.name).eq_ignore_ascii_case(name.as_bytes())
}

/// The number of fields with that name.
fn count_of(bytes: &[u8], fields: &[HeaderSpan], name: &str) -> usize
    ensures { result ≡ count_by (is_named bytes.now name.now) fields.now }
{
    fields
        .iter()
        .filter(|field| is_named(bytes, field, name))
        .count()
}

/// The first field with that name.
fn first_of<'f>(bytes: &[u8], fields: &'f [HeaderSpan], name: &str) -> Option<&'f HeaderSpan>
    ensures { option_map (λ f. f.now) result ≡ find (is_named bytes.now name.now) fields.now }
{
    fields.iter().find(|field| is_named(bytes, field, name))
}

/// Whether a list item is `close`, in any case, with or without white space around it.
fn is_close(item: &[u8]) -> bool
    ensures { result ≡ is_close item.now }
{
    b"close".eq_ignore_ascii_case(trim_ows(item))
}

/// Whether an item of a comma-separated list is `close`.
fn lists_close(value: &[u8]) -> bool
    ensures { result ≡ lists_close value.now }
{
    value.split(|byte| *byte == b',').any(|item| is_close(item))
}

/// Whether the field is a `Connection` field that lists `close`.
fn is_closing_field(bytes: &[u8], field: &HeaderSpan) -> bool
    ensures { result ≡ is_closing_field bytes.now field.now }
{
    is_named(bytes, field, "connection") && lists_close(bytes_of_span(bytes, field.value))
}
