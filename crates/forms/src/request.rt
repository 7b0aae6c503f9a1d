//! Requests of any form, read from the route's parameter, the query and the body.

ghost use Rattle.std.specs.Prelude.{IfOk};
ghost use Rattle.model.specs.Forms.{request_of};
ghost use Rattle.forms.specs.Given.{Gives, Reads};
ghost use Rattle.forms.specs.Requests.{request_asked};

use crate::batch::{BatchRequest, read_batch};
use crate::list::{ListRequest, read_list};
use crate::lock::{LockRequest, read_lock};
use crate::objects::{GetRequest, PutRequest, VerifyRequest, read_get, read_put, read_verify};
use crate::refusal::Refusal;
use crate::unlock::{UnlockRequest, read_unlock};
use crate::verify_locks::{VerifyLocksRequest, read_verify_locks};
use model::Form;
use names::Rule;
use std::alloc::{AllocError, Global};

/// A client's request.
#[derive(Debug, Drop)]
pub enum Request {
    /// Find out how to download or upload objects (Git LFS API, Batch).
    Batch(BatchRequest),
    /// Download an object (Git LFS API, Basic Transfers, "Downloads").
    Get(GetRequest),
    /// Upload an object (Git LFS API, Basic Transfers, "Uploads").
    Put(PutRequest),
    /// Verify that an object is stored (Git LFS API, Basic Transfers, "Verification").
    Verify(VerifyRequest),
    /// Lock a path (Git LFS API, File Locking, "Create Lock").
    Lock(LockRequest),
    /// List locks (Git LFS API, File Locking, "List Locks").
    List(ListRequest),
    /// List the locks of a ref, the caller's own apart (Git LFS API, File Locking, "List Locks for
    /// Verification").
    VerifyLocks(VerifyLocksRequest),
    /// Release a lock (Git LFS API, File Locking, "Delete Lock").
    Unlock(UnlockRequest),
}

/// Reads a request of the form, or returns the first of the J rules that refuses it.
///
/// `parameter` is the value of the route's parameter in the path, empty if the route has none;
/// `query` is the part of the target after its first question mark. If a form does not read one of
/// the three, its value does not matter. In a body, unknown keys are ignored, and the last of
/// repeated keys counts.
///
/// # Errors
///
/// An [`AllocError`] if memory runs out.
pub fn read_form(
    alloc: Global,
    form: Form,
    parameter: &str,
    query: &str,
    body: &[u8],
) -> Result<Result<Request, Rule>, AllocError>
    ensures { IfOk result (λ read. Gives request_asked read
        (request_of form parameter.now query.now body.now)) }
{
    match request_in(alloc, form, parameter, query, body) {
        Ok(request) => Ok(Ok(request)),
        Err(Refusal::Rule(rule)) => Ok(Err(rule)),
        Err(Refusal::Memory) => Err(AllocError),
    }
}

/// The request of the form.
///
/// # Errors
///
/// The first of the J rules that refuses it, or `Memory`.
fn request_in(
    alloc: Global,
    form: Form,
    parameter: &str,
    query: &str,
    body: &[u8],
) -> Result<Request, Refusal>
    ensures { Reads request_asked result
        (request_of form parameter.now query.now body.now) }
{
    match form {
        Form::Batch => Ok(Request::Batch(read_batch(alloc, body)?)),
        Form::Get => Ok(Request::Get(read_get(parameter)?)),
        Form::Put => Ok(Request::Put(read_put(alloc, parameter, query)?)),
        Form::Verify => Ok(Request::Verify(read_verify(alloc, query, body)?)),
        Form::Lock => Ok(Request::Lock(read_lock(alloc, body)?)),
        Form::List => Ok(Request::List(read_list(alloc, query)?)),
        Form::VerifyLocks => Ok(Request::VerifyLocks(read_verify_locks(alloc, body)?)),
        Form::Unlock => Ok(Request::Unlock(read_unlock(alloc, parameter, body)?)),
    }
}
