//! What a message asks: its head, copied from the connection's buffer.

ghost use Rattle.std.specs.Prelude.{◌≡◌, IfOk, option_map};
ghost use Rattle.httparse.specs.Grammar.{RequestHead};
ghost use Rattle.wire.specs.Fields.{Shows};
ghost use Rattle.service.specs.Messages.{IsCopyOf, IsRead, IsReadFrom, IsRequestOf};
ghost use Rattle.service.specs.declared.message.HeadFault.TheVariants as fault;

use crate::judging::{Denied, Target, route_of};
use desk::RepoRequest;
use forms::{Request, read_form};
use model::Form;
use names::Rule;
use routes::Routes;
use std::alloc::{AllocError, Global};
use thiserror::Error;
use wire::Head;

/// What an accepted head asks. Its texts are copies: the buffer that the head is in is borrowed while the body is read.
#[derive(Debug, Drop)]
pub struct Asked {
    /// The repository, as `owner/name`. It may not be a valid name.
    pub repo: String,
    /// What the method asks of the resource.
    pub form: Form,
    /// The route's parameter; empty if the route has none.
    pub parameter: String,
    /// The part of the target after its first question mark.
    pub query: String,
    /// The value of the first `Authorization` field, if any.
    pub authorization: Option<Vec<u8>>,
    /// The size of the body that follows the head, in bytes.
    pub size: u64,
    /// Whether the head asks to close the connection after this message.
    pub is_last: bool,
}

/// Why a head is not answered by the desk.
#[derive(Clone, Copy, Debug, Error)]
pub enum HeadFault {
    /// A rule refuses it.
    #[error("{0}")]
    Denied(Denied),
    /// There is no memory for its texts.
    #[error("no memory")]
    Memory,
}

impl From<Denied> for HeadFault {
    ghost from_gives = { λ denied result. result ≡ fault.Denied denied };

    fn from(denied: Denied) -> HeadFault {
        HeadFault::Denied(denied)
    }
}

impl From<AllocError> for HeadFault {
    ghost from_gives = { λ _ result. result ≡ fault.Memory };

    fn from(_error: AllocError) -> HeadFault {
        HeadFault::Memory
    }
}

/// A copy of the value, if there is one.
fn copy_of(alloc: Global, value: Option<&[u8]>) -> Result<Option<Vec<u8>>, AllocError>
    ensures { IfOk result (λ copy. option_map (λ v. v.items) copy ≡ option_map (λ v. v.now) value.entry) }
{
    match value {
        Some(bytes) => Ok(Some(Vec::from_slice(alloc, bytes)?)),
        None => Ok(None),
    }
}

/// Copies what the head asks.
fn copy_asked(
    alloc: Global,
    target: &Target<'_>,
    authorization: Option<&[u8]>,
    is_last: bool,
) -> Result<Asked, AllocError>
    ensures { IfOk result (IsCopyOf target.entry.now authorization.entry is_last) }
{
    Ok(Asked {
        repo: target.route.repo_text(alloc)?,
        form: target.form,
        parameter: String::from_str(alloc, target.route.parameter)?,
        query: String::from_str(alloc, target.query)?,
        authorization: copy_of(alloc, authorization)?,
        size: target.size,
        is_last,
    })
}

/// Reads what the head asks.
///
/// # Errors
///
/// The rule that refuses the head, as [`route_of`] returns it; or no memory.
pub fn read_head(alloc: Global, routes: &Routes, head: &Head<'_>) -> Result<Asked, HeadFault>
    ensures { (h : RequestHead) → Shows head.now h → IsRead h result }
{
    let target = route_of(routes, head)?;
    let asked = copy_asked(
        alloc,
        &target,
        head.first("authorization"),
        head.asks_close(),
    )?;
    Ok(asked)
}

/// Reads the request that the head and its body make, or the rule that refuses it: J1 to J4. The body of an upload is its
/// content, and is not read here: it is empty.
///
/// # Errors
///
/// An [`AllocError`] if memory runs out.
pub fn read_request(
    alloc: Global,
    asked: &Asked,
    body: &[u8],
) -> Result<Result<Request, Rule>, AllocError>
    ensures { IfOk result (IsReadFrom asked.now body.now) }
{
    read_form(
        alloc,
        asked.form,
        asked.parameter.as_str(),
        asked.query.as_str(),
        body,
    )
}

impl Asked {
    /// The value of `Authorization`, if any.
    fn authorization(&self) -> Option<&[u8]>
        ensures { option_map (λ v. v.now) result ≡ option_map (λ v. v.items) self.now.authorization }
    {
        match &self.authorization {
            Some(value) => Some(value.as_slice()),
            None => None,
        }
    }

    /// The request to the desk.
    pub fn to_desk<'a>(&'a self, request: &'a Result<Request, Rule>) -> RepoRequest<'a>
        ensures { IsRequestOf self.now request.now result }
    {
        RepoRequest {
            authorization: self.authorization(),
            repo: self.repo.as_str(),
            request,
        }
    }
}
