//! The keys of a query (URL Standard, `application/x-www-form-urlencoded`).

ghost use Rattle.std.specs.Prelude.{◌≡◌, IfOk, bytes_eq, option_map};
ghost use Rattle.std.specs.Cow.{cow_str_bytes};
ghost use Rattle.form_urlencoded.specs.Form.{raw_pairs};
ghost use Rattle.model.specs.Forms.{decode_text, query_ref, query_value};
ghost use Rattle.forms.specs.Given.{Reads, only, ref_given, string_given, values_among};

use crate::body::ref_of;
use crate::refusal::Refusal;
use form_urlencoded::{decode, raw_pairs};
use names::{RefName, Rule};
use std::alloc::{AllocError, Global};
use std::borrow::CowStr;

/// The ref under the key `ref` of the query; `None` if the key is missing or its value is empty.
///
/// # Errors
///
/// J2 if the key occurs twice, or its value is not a ref.
pub(crate) fn query_ref(alloc: Global, query: &str) -> Result<Option<RefName>, Refusal>
    ensures { Reads ref_given result (query_ref query.now) }
{
    let text = query_value(alloc, query, "ref")?;
    Ok(ref_of(text)?)
}

/// The value of a key of the query, decoded; `None` if the key is missing or its value is empty.
///
/// # Errors
///
/// J2 if the key occurs twice.
pub(crate) fn query_value(alloc: Global, query: &str, key: &str) -> Result<Option<String>, Refusal>
    ensures { Reads string_given result (query_value key.now query.now) }
{
    let Some(value) = only_value(alloc, query, key)? else {
        return Ok(None);
    };
    if value.as_str().is_empty() {
        return Ok(None);
    }
    Ok(Some(value.into_owned(alloc)?))
}

/// The value of a key of the query, decoded; `None` if the key is missing.
///
/// # Errors
///
/// J2 if the key occurs twice.
fn only_value<'a>(alloc: Global, query: &'a str, key: &str) -> Result<Option<CowStr<'a>>, Refusal>
    ensures { Reads (λ found. option_map cow_str_bytes found) result
        (only (values_among key.now (raw_pairs query.now))) }
{
    let mut found = None;
    for (name, value) in raw_pairs(query.as_bytes()) {
        if !decodes_to(alloc, name, key)? {
            continue;
        }
        if found.is_some() {
            return Err(Rule::J2.into());
        }
        found = Some(decode(alloc, value)?);
    }
    Ok(found)
}

/// Whether the name, once decoded, is this key.
fn decodes_to(alloc: Global, name: &[u8], key: &str) -> Result<bool, AllocError>
    ensures { IfOk result (λ same. same ≡ bytes_eq (decode_text name.now) key.now) }
{
    let name = decode(alloc, name)?;
    Ok(name.as_str() == key)
}
