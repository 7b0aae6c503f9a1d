//! Requests: a command for the running server.

ghost use Rattle.std.specs.Prelude.{◌≡◌, ◌++◌, ◌+◌, ◌<◌, ◌≤◌, ℕ, List, length, map, flat_map, string_bytes, IfSome, IfNone, IfOk, IfErr, OnOk};
ghost use Rattle.control.specs.Fields.{field, BeginsWith, BeginsWithNoText};
ghost use Rattle.control.specs.Requests.{AreWords, longest_request, most_words, IsReadAs, IsNoRequest, IsFaultOf, IsPrefixFaultOf, IsRequest, prefix_bytes, request_body, request_bytes, request_of, request_seen};
ghost use Rattle.control.specs.declared.request.RequestFault.TheVariants.{Memory as no_memory};

use crate::fields::{front_field, number_in, push_field, push_number};
use crate::version::VERSION;
use std::alloc::{AllocError, Global};
use std::str;
use thiserror::Error;

/// The most bytes of a request, without the five in front: 16 MiB.
pub const LONGEST_REQUEST: usize = 16 * 1024 * 1024;

/// The most words of a request.
pub const MOST_WORDS: usize = 63;

/// A command for the running server.
#[derive(Debug, Drop)]
pub struct Request<'a> {
    /// The standard input of the command.
    pub input: &'a [u8],
    /// The words of the command.
    pub words: Vec<String>,
}

/// Why a request has no bytes.
#[derive(Clone, Copy, Debug, PartialEq, Eq, Error)]
pub enum RequestFault {
    /// It has at most [`MOST_WORDS`] words, and more than [`LONGEST_REQUEST`] bytes.
    #[error("the input and the words are too long")]
    TooLong,
    /// It has more than [`MOST_WORDS`] words.
    #[error("too many words")]
    TooManyWords,
    /// Memory ran out.
    #[error("no memory")]
    Memory,
}

/// Why the first bytes of a request have no size.
#[derive(Clone, Copy, Debug, PartialEq, Eq, Error)]
pub enum PrefixFault {
    /// The first byte is not [`VERSION`].
    #[error("the request has another version")]
    OtherVersion,
    /// It is, and more than [`LONGEST_REQUEST`] bytes follow.
    #[error("the request is too long")]
    TooLong,
}

impl From<AllocError> for RequestFault {
    ghost from_gives = { λ _ fault. fault ≡ no_memory };

    fn from(_: AllocError) -> RequestFault {
        RequestFault::Memory
    }
}

/// `size` and the number of bytes of this field; `None` if that is over the longest request.
fn size_with(size: usize, content: &[u8]) -> Option<usize>
    requires { size ≤ longest_request }
    ensures some { IfSome result (λ total. total ≡ size + length (field content.now)) }
    ensures within { IfSome result (λ total. total ≤ longest_request) }
    ensures none { IfNone result (longest_request < size + length (field content.now)) }
{
    let total = content.len().checked_add(size + 4)?;
    if total > LONGEST_REQUEST {
        return None;
    }
    Some(total)
}

/// The number of bytes of a request, without the five in front; `None` if that is over the longest request.
fn body_size(input: &[u8], words: &[String]) -> Option<usize>
    ensures some { IfSome result (λ size.
        size ≡ length (request_body (request_of input.now words.now))) }
    ensures within { IfSome result (λ size. size ≤ longest_request) }
    ensures none { IfNone result
        (longest_request < length (request_body (request_of input.now words.now))) }
{
    let mut size = size_with(0, input)?;
    for word in words {
        size = size_with(size, word.as_bytes())?;
    }
    Some(size)
}

/// Appends a field of each word.
fn push_words(bytes: &mut Vec<u8>, words: &[String]) -> Result<(), AllocError>
    requires { length (flat_map field (map string_bytes words.now)) ≤ longest_request }
    ensures { OnOk result
        (bytes.new.items ≡ bytes.old.items ++ flat_map field (map string_bytes words.now)) }
{
    for word in words {
        push_field(bytes, word.as_bytes())?;
    }
    Ok(())
}

/// The bytes of a request in range, of which `size` follow the first five.
fn write_request(
    alloc: Global,
    size: usize,
    input: &[u8],
    words: &[String],
) -> Result<Vec<u8>, AllocError>
    requires size { size ≡ length (request_body (request_of input.now words.now)) }
    requires within { size ≤ longest_request }
    ensures { IfOk result (λ bytes. bytes.items ≡ request_bytes (request_of input.now words.now)) }
{
    let mut bytes = Vec::with_capacity(alloc, size + 5)?;
    bytes.push(VERSION)?;
    push_number(&mut bytes, size)?;
    push_field(&mut bytes, input)?;
    push_words(&mut bytes, words)?;
    Ok(bytes)
}

/// Returns the bytes of a request: the version, the number of those that follow in four bytes, and then
/// the fields of the input and of each word.
///
/// # Errors
///
/// `TooManyWords` exactly if there are more than [`MOST_WORDS`], else `TooLong` exactly if more than
/// [`LONGEST_REQUEST`] bytes follow, and else `Memory`.
pub fn request_bytes(alloc: Global, input: &[u8], words: &[String]) -> Result<Vec<u8>, RequestFault>
    ensures ok { IfOk result (λ bytes.
        bytes.items ≡ request_bytes (request_of input.now words.now)) }
    ensures range { OnOk result (IsRequest (request_of input.now words.now)) }
    ensures err { IfErr result (λ fault. IsFaultOf fault (request_of input.now words.now)) }
{
    if words.len() > MOST_WORDS {
        return Err(RequestFault::TooManyWords);
    }
    let Some(size) = body_size(input, words) else {
        return Err(RequestFault::TooLong);
    };
    Ok(write_request(alloc, size, input, words)?)
}

/// Returns how many bytes of a request follow its first five, which are the version and a number.
///
/// # Errors
///
/// `OtherVersion` exactly if the first byte is not [`VERSION`], and else `TooLong` exactly if more than
/// [`LONGEST_REQUEST`] bytes follow.
pub fn request_size(prefix: [u8; 5]) -> Result<usize, PrefixFault>
    ensures ok { IfOk result (λ size. prefix_bytes size ≡ prefix) }
    ensures within { IfOk result (λ size. size ≤ longest_request) }
    ensures err { IfErr result (λ fault. IsPrefixFaultOf fault prefix) }
{
    let [version, a, b, c, d] = prefix;
    if version != VERSION {
        return Err(PrefixFault::OtherVersion);
    }
    let size = number_in(&[a, b, c, d]);
    if size > LONGEST_REQUEST {
        return Err(PrefixFault::TooLong);
    }
    Ok(size)
}

/// The word at the front, and the bytes after it; `None` if there is no whole field, or it is not UTF-8.
fn front_word(bytes: &[u8]) -> Option<(&str, &[u8])>
    ensures some { IfSome result (λ front. BeginsWith bytes.now front.0.now front.1.now) }
    ensures none { IfNone result (BeginsWithNoText bytes.now) }
{
    let (word, rest) = front_field(bytes)?;
    match str::from_utf8(word) {
        Ok(text) => Some((text, rest)),
        Err(_) => None,
    }
}

/// The words of which these are the fields; `None` if they are no fields of at most [`MOST_WORDS`] words.
fn read_words(alloc: Global, bytes: &[u8]) -> Result<Option<Vec<String>>, AllocError>
    requires { length bytes.now ≤ longest_request }
    ensures some { IfOk result (λ read. IfSome read (λ words.
        AreWords bytes.now (map string_bytes words.items))) }
    ensures none { IfOk result (λ read. IfNone read
        ((words : List (List ℕ)) → AreWords bytes.now words → ⊥)) }
{
    let mut words = Vec::new(alloc);
    let mut rest = bytes;
    while !rest.is_empty() {
        if words.len() == MOST_WORDS {
            return Ok(None);
        }
        let Some((word, after)) = front_word(rest) else {
            return Ok(None);
        };
        words.push(String::from_str(alloc, word)?)?;
        rest = after;
    }
    Ok(Some(words))
}

/// Returns the request of which these are all the bytes, without the five in front; `None` if they are
/// no request. The words are copied, and the input is not.
///
/// # Errors
///
/// Memory ran out.
pub fn read_request(alloc: Global, bytes: &[u8]) -> Result<Option<Request<'_>>, AllocError>
    ensures some { IfOk result (λ read. IfSome read (λ request.
        IsReadAs bytes.now (request_seen request))) }
    ensures none { IfOk result (λ read. IfNone read (IsNoRequest bytes.now)) }
{
    if bytes.len() > LONGEST_REQUEST {
        return Ok(None);
    }
    let Some((input, rest)) = front_field(bytes) else {
        return Ok(None);
    };
    let Some(words) = read_words(alloc, rest)? else {
        return Ok(None);
    };
    Ok(Some(Request { input, words }))
}
