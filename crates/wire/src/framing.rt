//! The size of the body after a head, and the heads that do not state it (RFC 9112, Message Body Length).

ghost use Rattle.std.specs.Prelude.{◌≡◌, ◌&&◌, ◌||◌, true, false, Ok, Err, MatchOption, MatchResult};
ghost use Rattle.std.specs.List.{list_all};
ghost use Rattle.std.specs.Str.Parse.{digits_value};
ghost use Rattle.std.specs.Char.{is_ascii_digit};
ghost use Rattle.httparse.specs.Grammar.{RequestHead};
ghost use Rattle.model.specs.Heads.{is_length, is_method, lengths, content_length, at_most, check_framing};
ghost use Rattle.wire.specs.Fields.{Shows};
ghost use Rattle.wire.specs.HeadRules.{rule_seen};

use crate::head::Head;
use crate::rules::HeadRule;
use names::LARGEST_OBJECT;

/// The longest body of a POST, in bytes.
pub const LARGEST_FORM: u64 = 1_048_576;

impl<'a> Head<'a> {
    /// Returns the size of the body in bytes: the value of `Content-Length`, or 0 if the head has none.
    ///
    /// # Errors
    ///
    /// The first of these rules that applies. The end of the body is then unknown or irrelevant, and
    /// nothing after the head may be read.
    ///
    /// - H2: there is a `Transfer-Encoding`.
    /// - H3: POST or PUT without `Content-Length`.
    /// - H4: a `Content-Length` that is repeated or is not 1 to 18 digits; two `Authorization` or
    ///   two `Accept`; a GET with a length above 0.
    /// - H5: a POST over [`LARGEST_FORM`] bytes, or a PUT over [`LARGEST_OBJECT`].
    pub fn body_length(&self) -> Result<u64, HeadRule>
        ensures { (head : RequestHead) → Shows self.now head
            → MatchResult result (λ n. (check_framing head ≡ Ok tt) × (n ≡ content_length head))
            (λ rule. check_framing head ≡ Err (rule_seen rule)) }
    {
        if self.count("transfer-encoding") > 0 {
            return Err(HeadRule::H2);
        }
        let is_post = self.method() == b"POST".as_slice();
        let is_put = self.method() == b"PUT".as_slice();
        if (is_post || is_put) && self.count("content-length") == 0 {
            return Err(HeadRule::H3);
        }
        let Some(length) = self.stated_length() else {
            return Err(HeadRule::H4);
        };
        if self.count("authorization") > 1 || self.count("accept") > 1 {
            return Err(HeadRule::H4);
        }
        if self.method() == b"GET".as_slice() && length > 0 {
            return Err(HeadRule::H4);
        }
        if is_post && length > LARGEST_FORM || is_put && length > LARGEST_OBJECT {
            return Err(HeadRule::H5);
        }
        Ok(length)
    }

    /// The length that the head states: 0 if it states none, and `None` if it states two, or one that
    /// is not 1 to 18 digits.
    fn stated_length(&self) -> Option<u64>
        ensures { (head : RequestHead) → Shows self.now head → MatchOption result
            ((at_most 1 (lengths head) && list_all is_length (lengths head)) ≡ false)
            (λ n. ((at_most 1 (lengths head) && list_all is_length (lengths head)) ≡ true)
            × (n ≡ content_length head)) }
    {
        if self.count("content-length") > 1 {
            return None;
        }
        match self.first("content-length") {
            Some(value) => length_in(value),
            None => Some(0),
        }
    }
}

/// Whether each byte is a digit.
fn are_digits(value: &[u8]) -> bool
    ensures { result ≡ list_all is_ascii_digit value.now }
{
    value.iter().all(u8::is_ascii_digit)
}

/// The number written with 1 to 18 digits; `None` for any other text.
fn length_in(value: &[u8]) -> Option<u64>
    ensures { MatchOption result (is_length value.now ≡ false)
        (λ n. (is_length value.now ≡ true) × (n ≡ digits_value 10 value.now)) }
{
    if value.is_empty() || value.len() > 18 || !are_digits(value) {
        return None;
    }
    let Ok(text) = str::from_utf8(value) else {
        return None;
    };
    text.parse().ok()
}
