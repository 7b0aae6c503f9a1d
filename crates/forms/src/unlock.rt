//! The parameter and the body of a request to release a lock (Git LFS API, File Locking, "Delete
//! Lock").

ghost use Rattle.serde_json.specs.View.{view};
ghost use Rattle.model.specs.Forms.{unlock_form};
ghost use Rattle.forms.specs.Given.{Gives, Reads, text_given, unlock_in_range, unlock_keys};
ghost use Rattle.forms.specs.Requests.{unlock_asked};

use crate::body::{check_ref, flag_if_given, object_of, ref_if_given};
use crate::refusal::Refusal;
use names::{LockId, Rule};
use serde_json::Value;
use std::alloc::Global;

/// The lock to release.
#[derive(Debug, Drop)]
pub struct UnlockRequest {
    /// The lock's id.
    pub id: LockId,
    /// Whether to release it if it is another user's.
    pub force: bool,
}

/// Reads the request to release a lock in the route's parameter and a body. The body's ref has no
/// effect.
///
/// # Errors
///
/// J1 if the body has the wrong shape; else J2 if its ref or the parameter is out of range.
pub(crate) fn read_unlock(
    alloc: Global,
    parameter: &str,
    body: &[u8],
) -> Result<UnlockRequest, Refusal>
    ensures { Reads unlock_asked result (unlock_form parameter.now body.now) }
{
    let object = object_of(alloc, body)?;
    let (force, ref_name) = unlock_values(&object)?;
    Ok(unlock_of(parameter, force, ref_name)?)
}

/// Whether force is given and the ref of an object, not yet tested for range.
///
/// # Errors
///
/// J1 if one of them is of another kind.
fn unlock_values(object: &Value) -> Result<(Option<bool>, Option<&str>), Rule>
    ensures { Gives
        (λ p. record {
          force = p.0;
          ref = text_given p.1;
        }) result (unlock_keys (view object.now)) }
{
    let force = flag_if_given(object.get("force"))?;
    let name = ref_if_given(object.get("ref"))?;
    Ok((force, name))
}

/// The request for the lock that the parameter names.
///
/// # Errors
///
/// J2 if the ref or the parameter is out of range.
fn unlock_of(
    parameter: &str,
    force: Option<bool>,
    ref_name: Option<&str>,
) -> Result<UnlockRequest, Rule>
    ensures { Gives unlock_asked result (unlock_in_range parameter.now
        (record { force = force; ref = text_given ref_name.entry })) }
{
    check_ref(ref_name)?;
    match LockId::read(parameter) {
        Some(id) => Ok(UnlockRequest {
            id,
            force: force.unwrap_or(false),
        }),
        None => Err(Rule::J2),
    }
}
