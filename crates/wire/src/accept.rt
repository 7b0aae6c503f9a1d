//! Which types of a reply a client accepts (RFC 9110, Accept).

ghost use Rattle.std.specs.Prelude.{◌≡◌, ◌==◌, codes, position};
ghost use Rattle.std.specs.List.{list_any, slice_split, before_first};
ghost use Rattle.httparse.specs.Grammar.{RequestHead};
ghost use Rattle.model.specs.Heads.{is_accepted, accepts, values};
ghost use Rattle.wire.specs.Fields.{Shows};

use crate::head::Head;
use crate::ows::trim_ows;

fn first_semicolon(item: &[u8]) -> Option<usize>
    ensures { result ≡ position (λ b. b == 59) item.now }
{
    item.iter().position(|byte| *byte == b';')
}

/// The part before the first semicolon.
fn without_parameters(item: &[u8]) -> &[u8]
    ensures { result.now ≡ before_first (λ b. b == 59) item.now }
{
    match first_semicolon(item) {
        Some(at) => &item[..at],
        None => item,
    }
}

/// Whether the item names the type of the Git LFS API, or a range of types that includes it.
fn is_accepted(item: &[u8]) -> bool
    ensures { result ≡ is_accepted item.now }
{
    let kind = trim_ows(without_parameters(item));
    kind.eq_ignore_ascii_case(b"application/vnd.git-lfs+json")
        || kind.eq_ignore_ascii_case(b"application/*")
        || kind.eq_ignore_ascii_case(b"*/*")
}

fn lists_accepted(value: &[u8]) -> bool
    ensures { result ≡ list_any is_accepted (slice_split (λ b. b == 44) value.now) }
{
    value
        .split(|byte| *byte == b',')
        .any(|item| is_accepted(item))
}

impl<'a> Head<'a> {
    /// Whether the client accepts JSON of the Git LFS API: the `Accept` field lists it, or the head has no `Accept`.
    pub fn accepts_json(&self) -> bool
        ensures { (head : RequestHead) → Shows self.now head → result
            ≡ accepts (values (codes "accept") head) }
    {
        match self.first("accept") {
            Some(value) => lists_accepted(value),
            None => true,
        }
    }
}
