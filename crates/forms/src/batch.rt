//! The body of a batch: which objects a client wants to transfer (Git LFS API, Batch).

ghost use Rattle.std.specs.Prelude.{◌≡◌, map};
ghost use Rattle.serde_json.specs.View.{items_view, view};
ghost use Rattle.serde_json.specs.Find.{as_array};
ghost use Rattle.names.specs.declared.rules.Rule.TheVariants.{J1, J2};
ghost use Rattle.model.specs.Reading.{ok_or};
ghost use Rattle.model.specs.Forms.{as_batch_object, batch_form, each_as, if_given, operation_in};
ghost use Rattle.forms.specs.Given.{Gives, Reads, batch_in_range, batch_keys, batch_objects, has_basic_if_given, has_basic_in, items_given, value_given};
ghost use Rattle.forms.specs.Requests.{batch_asked, batch_given, object_asked};

use crate::body::{copied, object_of, read_ref, ref_if_given, text_if_given};
use crate::objects::object_values;
use crate::refusal::Refusal;
use names::{Operation, RefName, Rule};
use serde_json::Value;
use std::alloc::{AllocError, Global};

/// The most objects of a batch.
pub const OBJECT_LIMIT: usize = 1_000;

/// An object of a batch, as it was given.
#[derive(Debug, Drop)]
pub struct BatchObject {
    /// The text that was given as the object's name. It may not be one.
    pub oid: String,
    /// The number that was given as its size; `None` if it is not a whole number of 64 bits.
    pub size: Option<u64>,
}

/// Which objects to transfer, which way, and for which ref.
#[derive(Debug, Drop)]
pub struct BatchRequest {
    /// Whether the objects are to be downloaded or uploaded.
    pub operation: Operation,
    /// The ref; `None` means the repository's default ref.
    pub ref_name: Option<RefName>,
    /// The hash that names the objects; `None` means SHA-256.
    pub hash_algo: Option<String>,
    /// The objects, in the order of the request: at most [`OBJECT_LIMIT`].
    pub objects: Vec<BatchObject>,
}

/// The values under the keys of a body, except its objects.
#[derive(Clone, Copy)]
struct BatchValues<'a> {
    operation: &'a str,
    /// Whether `basic` is among the transfers; also if no transfers are given.
    basic: bool,
    ref_name: Option<&'a str>,
    hash_algo: Option<&'a str>,
}

/// Reads the batch in a body.
///
/// # Errors
///
/// J1 if the body has the wrong shape; else J2 if the operation or the ref is out of range, J3 if it
/// has more than [`OBJECT_LIMIT`] objects, J4 if it names transfers and `basic` is not among them.
pub(crate) fn read_batch(alloc: Global, body: &[u8]) -> Result<BatchRequest, Refusal>
    ensures { Reads batch_asked result (batch_form body.now) }
{
    let object = object_of(alloc, body)?;
    let values = batch_values(&object)?;
    let objects = objects_of(alloc, &object)?;
    batch_of(alloc, values, objects)
}

/// The values of an object, not yet tested for range.
///
/// # Errors
///
/// J1 if one of them is of another kind, or the operation is missing.
fn batch_values(object: &Value) -> Result<BatchValues<'_>, Rule>
    ensures { Gives batch_given result (batch_keys (view object.now)) }
{
    let Some(operation) = text_if_given(object.get("operation"))? else {
        return Err(Rule::J1);
    };
    let basic = basic_if_given(object.get("transfers"))?;
    let ref_name = ref_if_given(object.get("ref"))?;
    let hash_algo = text_if_given(object.get("hash_algo"))?;
    Ok(BatchValues {
        operation,
        basic,
        ref_name,
        hash_algo,
    })
}

/// The objects of a batch.
///
/// # Errors
///
/// J1 if they are missing, or if the value or one of its items is of another kind.
fn objects_of(alloc: Global, object: &Value) -> Result<Vec<BatchObject>, Refusal>
    ensures { Reads (λ objects. map object_asked objects.items) result
        (batch_objects (view object.now)) }
{
    match array_if_given(object.get("objects"))? {
        Some(items) => objects_in(alloc, items),
        None => Err(Rule::J1.into()),
    }
}

/// The items under a key; `None` if the key is missing.
///
/// # Errors
///
/// J1 if the value is of another kind. `null` counts as missing.
fn array_if_given(value: Option<&Value>) -> Result<Option<&[Value]>, Rule>
    ensures { Gives items_given result (if_given as_array (value_given value.entry)) }
{
    match value {
        None | Some(Value::Null) => Ok(None),
        Some(Value::Array(items)) => Ok(Some(items.as_slice())),
        Some(_) => Err(Rule::J1),
    }
}

/// Whether `basic` is among the transfers under a key; also if the key is missing.
///
/// # Errors
///
/// J1 if the value or one of its items is of another kind. `null` counts as missing.
fn basic_if_given(value: Option<&Value>) -> Result<bool, Rule>
    ensures { result ≡ has_basic_if_given (value_given value.entry) }
{
    match array_if_given(value)? {
        Some(items) => has_basic(items),
        None => Ok(true),
    }
}

/// Whether `basic` is among the transfers, or there are none.
///
/// # Errors
///
/// J1 if one of them is not a text.
fn has_basic(items: &[Value]) -> Result<bool, Rule>
    ensures { result ≡ has_basic_in (items_view items.now) }
{
    let mut found = items.is_empty();
    for item in items {
        let Some(name) = item.as_str() else {
            return Err(Rule::J1);
        };
        if name == "basic" {
            found = true;
        }
    }
    Ok(found)
}

/// The objects that the items describe, in their order.
///
/// # Errors
///
/// J1 if one of them is of another kind.
fn objects_in(alloc: Global, items: &[Value]) -> Result<Vec<BatchObject>, Refusal>
    ensures { Reads (λ objects. map object_asked objects.items) result
        (ok_or (each_as as_batch_object (items_view items.now)) J1) }
{
    let mut objects = Vec::with_capacity(alloc, items.len())?;
    for item in items {
        let object = object_in(alloc, item)?;
        objects.push(object).map_err(AllocError::from)?;
    }
    Ok(objects)
}

/// The object that an item describes.
///
/// # Errors
///
/// J1 if the item is of another kind.
fn object_in(alloc: Global, item: &Value) -> Result<BatchObject, Refusal>
    ensures { Reads object_asked result (ok_or (as_batch_object (view item.now)) J1) }
{
    let values = object_values(item)?;
    let oid = values.oid.to_owned(alloc)?;
    let size = values.size.as_u64();
    Ok(BatchObject { oid, size })
}

/// The request with these values and objects.
///
/// # Errors
///
/// J2 if the operation or the ref is out of range; else J3 if there are more than [`OBJECT_LIMIT`]
/// objects; else J4 if `basic` is not among the transfers.
fn batch_of(
    alloc: Global,
    values: BatchValues<'_>,
    objects: Vec<BatchObject>,
) -> Result<BatchRequest, Refusal>
    ensures { Reads batch_asked result
        (batch_in_range (batch_given values.entry) (map object_asked objects.items)) }
{
    let operation = operation_in(values.operation)?;
    let ref_name = read_ref(alloc, values.ref_name)?;
    if objects.len() > OBJECT_LIMIT {
        return Err(Rule::J3.into());
    }
    if !values.basic {
        return Err(Rule::J4.into());
    }
    let hash_algo = copied(alloc, values.hash_algo)?;
    Ok(BatchRequest {
        operation,
        ref_name,
        hash_algo,
        objects,
    })
}

/// The operation of this name.
///
/// # Errors
///
/// J2 if the name is another.
fn operation_in(name: &str) -> Result<Operation, Rule>
    ensures { result ≡ ok_or (operation_in name.now) J2 }
{
    match name {
        "download" => Ok(Operation::Download),
        "upload" => Ok(Operation::Upload),
        _ => Err(Rule::J2),
    }
}
