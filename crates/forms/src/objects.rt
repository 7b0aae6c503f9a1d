//! Requests for objects: to download one, to upload one, to verify one (Git LFS API, Basic
//! Transfers).

ghost use Rattle.std.specs.Prelude.{◌≡◌};
ghost use Rattle.serde_json.specs.View.{number_view, view};
ghost use Rattle.names.specs.Texts.{is_hex_64};
ghost use Rattle.model.specs.Forms.{put_form, verify_form};
ghost use Rattle.forms.specs.Given.{Gives, Reads, size_of, verify_in_range, object_keys, within};
ghost use Rattle.forms.specs.Requests.{get_asked, put_asked, verify_asked, object_given};

use crate::body::{number_if_given, object_of, text_if_given};
use crate::query::query_ref;
use crate::refusal::Refusal;
use names::{Oid, RefName, Rule, Size};
use serde_json::{Number, Value};
use std::alloc::Global;

/// The object to download.
#[derive(Debug, Drop)]
pub struct GetRequest {
    /// The object's name.
    pub name: Oid,
}

/// The name to store a content under, and an optional ref. The content is not part of it.
#[derive(Debug, Drop)]
pub struct PutRequest {
    /// The object's name.
    pub name: Oid,
    /// The ref; `None` means the repository's default ref.
    pub ref_name: Option<RefName>,
}

/// The object that the client has uploaded, and an optional ref.
#[derive(Debug, Drop)]
pub struct VerifyRequest {
    /// The object's name.
    pub name: Oid,
    /// The object's size.
    pub size: Size,
    /// The ref; `None` means the repository's default ref.
    pub ref_name: Option<RefName>,
}

/// The name and the size of an object, as they were given.
#[derive(Clone, Copy)]
pub(crate) struct ObjectValues<'a> {
    pub(crate) oid: &'a str,
    pub(crate) size: &'a Number,
}

/// Reads the request to download the object that the route's parameter names.
///
/// # Errors
///
/// J2 if the parameter is not a name.
pub(crate) fn read_get(parameter: &str) -> Result<GetRequest, Rule>
    ensures { Gives get_asked result (within is_hex_64 parameter.now) }
{
    let name = name_of(parameter)?;
    Ok(GetRequest { name })
}

/// Reads the request to upload the object that the route's parameter names, under the query's ref.
///
/// # Errors
///
/// J2 if the parameter or the ref is out of range, or the key `ref` occurs twice.
pub(crate) fn read_put(alloc: Global, parameter: &str, query: &str) -> Result<PutRequest, Refusal>
    ensures { Reads put_asked result (put_form parameter.now query.now) }
{
    let name = name_of(parameter)?;
    let ref_name = query_ref(alloc, query)?;
    Ok(PutRequest { name, ref_name })
}

/// Reads the request to verify the object that a body describes, under the query's ref.
///
/// # Errors
///
/// J1 if the body has the wrong shape; else J2 if a value of the body or the ref is out of range, or
/// the key `ref` occurs twice.
pub(crate) fn read_verify(alloc: Global, query: &str, body: &[u8]) -> Result<VerifyRequest, Refusal>
    ensures { Reads verify_asked result (verify_form query.now body.now) }
{
    let object = object_of(alloc, body)?;
    let values = object_values(&object)?;
    verify_of(alloc, query, values)
}

/// The name and the size in a JSON object, not yet tested for range.
///
/// # Errors
///
/// J1 if one of them is missing or of another kind.
pub(crate) fn object_values(object: &Value) -> Result<ObjectValues<'_>, Rule>
    ensures { Gives object_given result (object_keys (view object.now)) }
{
    let Some(oid) = text_if_given(object.get("oid"))? else {
        return Err(Rule::J1);
    };
    let Some(size) = number_if_given(object.get("size"))? else {
        return Err(Rule::J1);
    };
    Ok(ObjectValues { oid, size })
}

/// The request with these values, under the query's ref.
///
/// # Errors
///
/// J2 if one of them or the ref is out of range, or the key `ref` occurs twice.
fn verify_of(alloc: Global, query: &str, values: ObjectValues<'_>) -> Result<VerifyRequest, Refusal>
    ensures { Reads verify_asked result
        (verify_in_range query.now (object_given values.entry)) }
{
    let name = name_of(values.oid)?;
    let size = size_of(values.size)?;
    let ref_name = query_ref(alloc, query)?;
    Ok(VerifyRequest {
        name,
        size,
        ref_name,
    })
}

/// Reads the name of an object.
///
/// # Errors
///
/// J2 if the text is not such a name.
fn name_of(text: &str) -> Result<Oid, Rule>
    ensures { result ≡ within is_hex_64 text.now }
{
    match Oid::read(text.as_bytes()) {
        Some(name) => Ok(name),
        None => Err(Rule::J2),
    }
}

/// Reads the size of an object.
///
/// # Errors
///
/// J2 if the number is not a whole one, or not the size of an object.
fn size_of(number: &Number) -> Result<Size, Rule>
    ensures { result ≡ size_of (number_view number.now) }
{
    match number.as_u64().and_then(Size::read) {
        Some(size) => Ok(size),
        None => Err(Rule::J2),
    }
}
