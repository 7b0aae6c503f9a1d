//! What the bodies of all requests share: a JSON object, values under its keys, a ref.

ghost use Rattle.std.specs.Prelude.{◌≡◌, IfOk};
ghost use Rattle.serde_json.specs.View.{view};
ghost use Rattle.serde_json.specs.Find.{as_bool, as_number, as_str};
ghost use Rattle.names.specs.Texts.{is_ref};
ghost use Rattle.names.specs.declared.rules.Rule.TheVariants.{J1, J2};
ghost use Rattle.model.specs.Reading.{check, ok_or};
ghost use Rattle.model.specs.Forms.{if_given, as_name, if_not_empty, is_if_given, whole_if_given};
ghost use Rattle.forms.specs.Given.{Gives, Reads, number_given, object_of, ref_given, string_given, text_given, value_given, value_of, within};

use crate::refusal::Refusal;
use names::{RefName, Rule};
use serde_json::{Number, Value};
use std::alloc::{AllocError, Global};

/// Parses the body as one JSON value, with only white space around it (RFC 8259).
///
/// # Errors
///
/// J1 if it is not UTF-8 or not such a value.
fn value_of(alloc: Global, body: &[u8]) -> Result<Value, Refusal>
    ensures { Reads view result (ok_or (value_of body.now) J1) }
{
    let Ok(text) = str::from_utf8(body) else {
        return Err(Rule::J1.into());
    };
    match Value::from_str(alloc, text) {
        Ok(value) => Ok(value),
        Err(error) => {
            if error.is_memory() {
                Err(Refusal::Memory)
            } else {
                Err(Rule::J1.into())
            }
        }
    }
}

/// Parses the body as one JSON object, with only white space around it (RFC 8259).
///
/// # Errors
///
/// J1 if it is not such an object.
pub(crate) fn object_of(alloc: Global, body: &[u8]) -> Result<Value, Refusal>
    ensures { Reads view result (ok_or (object_of body.now) J1) }
{
    let value = value_of(alloc, body)?;
    if !value.is_object() {
        return Err(Rule::J1.into());
    }
    Ok(value)
}

/// The text under a key; `None` if the key is missing.
///
/// # Errors
///
/// J1 if the value is of another kind. `null` counts as missing.
pub(crate) fn text_if_given(value: Option<&Value>) -> Result<Option<&str>, Rule>
    ensures { Gives text_given result (if_given as_str (value_given value.entry)) }
{
    match value {
        None | Some(Value::Null) => Ok(None),
        Some(Value::String(text)) => Ok(Some(text.as_str())),
        Some(_) => Err(Rule::J1),
    }
}

/// The number under a key; `None` if the key is missing.
///
/// # Errors
///
/// J1 if the value is of another kind. `null` counts as missing.
pub(crate) fn number_if_given(value: Option<&Value>) -> Result<Option<&Number>, Rule>
    ensures { Gives number_given result (if_given as_number (value_given value.entry)) }
{
    match value {
        None | Some(Value::Null) => Ok(None),
        Some(Value::Number(number)) => Ok(Some(number)),
        Some(_) => Err(Rule::J1),
    }
}

/// The `true` or `false` under a key; `None` if the key is missing.
///
/// # Errors
///
/// J1 if the value is of another kind. `null` counts as missing.
pub(crate) fn flag_if_given(value: Option<&Value>) -> Result<Option<bool>, Rule>
    ensures { result ≡ if_given as_bool (value_given value.entry) }
{
    match value {
        None | Some(Value::Null) => Ok(None),
        Some(Value::Bool(flag)) => Ok(Some(*flag)),
        Some(_) => Err(Rule::J1),
    }
}

/// The ref under a key: an object with the text `name`; `None` if the key is missing.
///
/// # Errors
///
/// J1 if the value is of another kind, or has no such text. `null` as the value counts as missing,
/// `null` as its `name` does not.
pub(crate) fn ref_if_given(value: Option<&Value>) -> Result<Option<&str>, Rule>
    ensures { Gives text_given result (if_given as_name (value_given value.entry)) }
{
    let Some(value) = value else {
        return Ok(None);
    };
    match value {
        Value::Null => Ok(None),
        Value::Object(_) => match text_if_given(value.get("name"))? {
            Some(name) => Ok(Some(name)),
            None => Err(Rule::J1),
        },
        _ => Err(Rule::J1),
    }
}

/// Reads the ref, if one is given.
///
/// # Errors
///
/// J2 if the text is not a ref.
pub(crate) fn read_ref(alloc: Global, text: Option<&str>) -> Result<Option<RefName>, Refusal>
    ensures { Reads ref_given result
        (within (is_if_given is_ref) (text_given text.entry)) }
{
    Ok(ref_of(copied(alloc, text)?)?)
}

/// The ref of this text, if one is given.
///
/// # Errors
///
/// J2 if the text is not a ref.
pub(crate) fn ref_of(text: Option<String>) -> Result<Option<RefName>, Rule>
    ensures { Gives ref_given result
        (within (is_if_given is_ref) (string_given text)) }
{
    let Some(text) = text else {
        return Ok(None);
    };
    match RefName::read(text) {
        Some(name) => Ok(Some(name)),
        None => Err(Rule::J2),
    }
}

/// Checks the ref, if one is given.
///
/// # Errors
///
/// J2 if the text is not a ref.
pub(crate) fn check_ref(text: Option<&str>) -> Result<(), Rule>
    ensures { result ≡ check (is_if_given is_ref (text_given text.entry)) J2 }
{
    match text {
        Some(name) if !RefName::accepts(name) => Err(Rule::J2),
        _ => Ok(()),
    }
}

/// Reads the whole number, if one is given.
///
/// # Errors
///
/// J2 if it is not a whole number of 64 bits with its sign.
pub(crate) fn whole_if_given(number: Option<&Number>) -> Result<Option<i64>, Rule>
    ensures { result ≡ whole_if_given (number_given number.entry) }
{
    let Some(number) = number else {
        return Ok(None);
    };
    match number.as_i64() {
        Some(whole) => Ok(Some(whole)),
        None => Err(Rule::J2),
    }
}

/// The text of the cursor, if one is given that is not empty.
pub(crate) fn read_cursor(alloc: Global, text: Option<&str>) -> Result<Option<String>, AllocError>
    ensures { IfOk result
        (λ cursor. string_given cursor ≡ if_not_empty (text_given text.entry)) }
{
    match text {
        Some(text) if text.is_empty() => Ok(None),
        _ => copied(alloc, text),
    }
}

/// A copy of the text, if one is given.
pub(crate) fn copied(alloc: Global, text: Option<&str>) -> Result<Option<String>, AllocError>
    ensures { IfOk result
        (λ copy. string_given copy ≡ text_given text.entry) }
{
    match text {
        Some(text) => Ok(Some(text.to_owned(alloc)?)),
        None => Ok(None),
    }
}
