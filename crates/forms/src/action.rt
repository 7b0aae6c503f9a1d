//! What a client may do at an address, and by which token (Git LFS API, Server Discovery and Batch).

ghost use Rattle.std.specs.Prelude.{◌≡◌, IfOk, string_bytes};
ghost use Rattle.serde_json.specs.View.{view};
ghost use Rattle.serde_json.specs.Written.{compact_text};
ghost use Rattle.model.specs.Replies.{action_data};
ghost use Rattle.forms.specs.Actions.{action_of, action_json};

use serde_json::{Value, json};
use std::alloc::{AllocError, Global};

/// An address, and the token for requests to it.
#[derive(Clone, Copy, Debug)]
pub struct Action<'a> {
    /// The address.
    pub href: &'a str,
    /// The token's text; written as the header field that a request needs.
    pub token: &'a str,
    /// How many seconds the token is valid.
    pub expires_in: u64,
}

/// The JSON value of an action, with the value of the header field.
pub(crate) fn action_value(
    alloc: Global,
    expires_in: u64,
    authorization: &str,
    href: &str,
) -> Result<Value, AllocError>
    ensures { IfOk result
        (λ value. view value ≡ action_json expires_in authorization.now href.now) }
{
    json!(in alloc; {"expires_in": expires_in, "header": {"Authorization": authorization}, "href": href})
}

/// `action_value`, serialized.
fn action_text(
    alloc: Global,
    expires_in: u64,
    authorization: &str,
    href: &str,
) -> Result<String, AllocError>
    ensures { IfOk result
        (λ text. string_bytes text
        ≡ compact_text (action_json expires_in authorization.now href.now)) }
{
    action_value(alloc, expires_in, authorization, href)?.to_string(alloc)
}

impl Action<'_> {
    /// Renders the JSON of the action: no white space, keys in the order of their bytes.
    ///
    /// # Errors
    ///
    /// Fails only if memory runs out.
    pub fn text(&self, alloc: Global) -> Result<String, AllocError>
        ensures { IfOk result
            (λ text. string_bytes text ≡ compact_text (action_data (action_of self.now))) }
    {
        let token = self.token;
        let authorization = format!(in alloc; "Bearer {token}")?;
        action_text(alloc, self.expires_in, authorization.as_str(), self.href)
    }
}
