//! The body of a request for the locks of a ref (Git LFS API, File Locking, "List Locks for
//! Verification").

ghost use Rattle.serde_json.specs.View.{view};
ghost use Rattle.model.specs.Forms.{verify_locks_form};
ghost use Rattle.forms.specs.Given.{Gives, Reads, verify_locks_in_range, verify_locks_keys};
ghost use Rattle.forms.specs.Requests.{verify_locks_asked, verify_locks_given};

use crate::body::{
    number_if_given, object_of, read_cursor, read_ref, ref_if_given, text_if_given, whole_if_given,
};
use crate::refusal::Refusal;
use names::{RefName, Rule};
use serde_json::{Number, Value};
use std::alloc::Global;

/// The ref to push to, and which page of its locks to show.
#[derive(Debug, Drop)]
pub struct VerifyLocksRequest {
    /// The ref; `None` means the repository's default ref.
    pub ref_name: Option<RefName>,
    /// The text of the cursor, which may be no lock id; `None` also if it was empty.
    pub cursor: Option<String>,
    /// How many locks the page may have, as it was given: any number of 64 bits.
    pub limit: Option<i64>,
}

/// The values under the keys of a body.
#[derive(Clone, Copy)]
struct VerifyLocksValues<'a> {
    ref_name: Option<&'a str>,
    cursor: Option<&'a str>,
    limit: Option<&'a Number>,
}

/// Reads the request for the locks of a ref in a body.
///
/// # Errors
///
/// J1 if the body has the wrong shape; else J2 if a value is out of range.
pub(crate) fn read_verify_locks(alloc: Global, body: &[u8]) -> Result<VerifyLocksRequest, Refusal>
    ensures { Reads verify_locks_asked result (verify_locks_form body.now) }
{
    let object = object_of(alloc, body)?;
    let values = verify_locks_values(&object)?;
    verify_locks_of(alloc, values)
}

/// The values of an object, not yet tested for range.
///
/// # Errors
///
/// J1 if one of them is of another kind.
fn verify_locks_values(object: &Value) -> Result<VerifyLocksValues<'_>, Rule>
    ensures { Gives verify_locks_given result (verify_locks_keys (view object.now)) }
{
    let ref_name = ref_if_given(object.get("ref"))?;
    let cursor = text_if_given(object.get("cursor"))?;
    let limit = number_if_given(object.get("limit"))?;
    Ok(VerifyLocksValues {
        ref_name,
        cursor,
        limit,
    })
}

/// The request with these values.
///
/// # Errors
///
/// J2 if one of them is out of range.
fn verify_locks_of(
    alloc: Global,
    values: VerifyLocksValues<'_>,
) -> Result<VerifyLocksRequest, Refusal>
    ensures { Reads verify_locks_asked result
        (verify_locks_in_range (verify_locks_given values.entry)) }
{
    let ref_name = read_ref(alloc, values.ref_name)?;
    let limit = whole_if_given(values.limit)?;
    let cursor = read_cursor(alloc, values.cursor)?;
    Ok(VerifyLocksRequest {
        ref_name,
        cursor,
        limit,
    })
}
