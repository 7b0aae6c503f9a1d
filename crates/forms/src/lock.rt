//! The body of a request for a lock (Git LFS API, File Locking, "Create Lock").

ghost use Rattle.std.specs.Prelude.{◌≡◌};
ghost use Rattle.serde_json.specs.View.{view};
ghost use Rattle.names.specs.Names.{path_text};
ghost use Rattle.names.specs.Texts.{is_lock_path};
ghost use Rattle.model.specs.Forms.{lock_form};
ghost use Rattle.forms.specs.Given.{Gives, Reads, lock_fields, in_range, text_given, within};
ghost use Rattle.forms.specs.Requests.{lock_asked};

use crate::body::{object_of, read_ref, ref_if_given, text_if_given};
use crate::refusal::Refusal;
use names::{LockPath, RefName, Rule};
use serde_json::Value;
use std::alloc::Global;

/// A path to lock, and an optional ref.
#[derive(Debug, Drop)]
pub struct LockRequest {
    /// The path.
    pub path: LockPath,
    /// The ref; `None` means the repository's default ref.
    pub ref_name: Option<RefName>,
}

/// Reads the lock request in a body.
///
/// # Errors
///
/// J1 if the body has the wrong shape; else J2 if a value is out of range.
pub(crate) fn read_lock(alloc: Global, body: &[u8]) -> Result<LockRequest, Refusal>
    ensures { Reads lock_asked result (lock_form body.now) }
{
    let object = object_of(alloc, body)?;
    let (path, ref_name) = lock_fields(&object)?;
    lock_of(alloc, path, ref_name)
}

/// The path and the ref of an object, not yet tested for range.
///
/// # Errors
///
/// J1 if the path is missing, or one of them is of another kind.
fn lock_fields(object: &Value) -> Result<(&str, Option<&str>), Rule>
    ensures { Gives
        (λ p. record {
          path = p.0.now;
          ref = text_given p.1;
        }) result (lock_fields (view object.now)) }
{
    let Some(path) = text_if_given(object.get("path"))? else {
        return Err(Rule::J1);
    };
    let name = ref_if_given(object.get("ref"))?;
    Ok((path, name))
}

/// The request for the path and the ref with these texts.
///
/// # Errors
///
/// J2 if one of them is out of range.
fn lock_of(alloc: Global, path: &str, ref_name: Option<&str>) -> Result<LockRequest, Refusal>
    ensures { Reads lock_asked result (in_range
        (record { path = path.now; ref = text_given ref_name.entry })) }
{
    let path = read_path(alloc, path)?;
    let ref_name = read_ref(alloc, ref_name)?;
    Ok(LockRequest { path, ref_name })
}

/// Reads the path to lock.
///
/// # Errors
///
/// J2 if the text is not a path that may be locked.
fn read_path(alloc: Global, text: &str) -> Result<LockPath, Refusal>
    ensures { Reads path_text result (within is_lock_path text.now) }
{
    match LockPath::read(text.to_owned(alloc)?) {
        Some(path) => Ok(path),
        None => Err(Rule::J2.into()),
    }
}
