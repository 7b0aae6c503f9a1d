//! The query of a request for locks (Git LFS API, File Locking, "List Locks").

ghost use Rattle.std.specs.Prelude.{◌≡◌, option_map, pos};
ghost use Rattle.std.specs.Char.{is_ascii_digit};
ghost use Rattle.std.specs.List.{list_all};
ghost use Rattle.names.specs.Names.{path_text};
ghost use Rattle.names.specs.Texts.{is_lock_path, lock_id_in};
ghost use Rattle.model.specs.Forms.{is_if_given, limit_in, list_form, read_if_given, short_number_in};
ghost use Rattle.forms.specs.Given.{Gives, Reads, list_in_range, list_keys, string_given, within};
ghost use Rattle.forms.specs.Requests.{list_asked, list_given};

use crate::body::ref_of;
use crate::query::query_value;
use crate::refusal::Refusal;
use names::{LockId, LockPath, RefName, Rule};
use std::alloc::Global;

/// Which locks to list, and which page of them. A missing filter selects all locks.
#[derive(Debug, Drop)]
pub struct ListRequest {
    /// Only the locks of this path.
    pub path: Option<LockPath>,
    /// Only the lock of this id.
    pub id: Option<LockId>,
    /// Only the locks of this ref.
    pub ref_name: Option<RefName>,
    /// The text of the cursor, which may be no lock id; `None` also if it was empty.
    pub cursor: Option<String>,
    /// How many locks the page may have, as it was given: from -9,999,999,999 to 9,999,999,999.
    pub limit: Option<i64>,
}

/// The texts of a query.
#[derive(Drop)]
struct ListTexts {
    path: Option<String>,
    id: Option<String>,
    refspec: Option<String>,
    cursor: Option<String>,
    limit: Option<String>,
}

/// Reads the request for locks in a query.
///
/// # Errors
///
/// J2 if a key occurs twice, or a value is out of range.
pub(crate) fn read_list(alloc: Global, query: &str) -> Result<ListRequest, Refusal>
    ensures { Reads list_asked result (list_form query.now) }
{
    let texts = list_texts(alloc, query)?;
    Ok(list_of(texts)?)
}

/// The texts of a query, not yet tested for range.
///
/// # Errors
///
/// J2 if a key occurs twice.
fn list_texts(alloc: Global, query: &str) -> Result<ListTexts, Refusal>
    ensures { Reads list_given result (list_keys query.now) }
{
    let path = query_value(alloc, query, "path")?;
    let id = query_value(alloc, query, "id")?;
    let refspec = query_value(alloc, query, "refspec")?;
    let cursor = query_value(alloc, query, "cursor")?;
    let limit = query_value(alloc, query, "limit")?;
    Ok(ListTexts {
        path,
        id,
        refspec,
        cursor,
        limit,
    })
}

/// The request with these texts.
///
/// # Errors
///
/// J2 if one of them is out of range.
fn list_of(texts: ListTexts) -> Result<ListRequest, Rule>
    ensures { Gives list_asked result (list_in_range (list_given texts)) }
{
    let path = path_of(texts.path)?;
    let ref_name = ref_of(texts.refspec)?;
    let id = id_of(texts.id)?;
    let limit = limit_of(texts.limit)?;
    Ok(ListRequest {
        path,
        id,
        ref_name,
        cursor: texts.cursor,
        limit,
    })
}

/// Reads the path, if one is given.
///
/// # Errors
///
/// J2 if the text is not a path that may be locked.
fn path_of(text: Option<String>) -> Result<Option<LockPath>, Rule>
    ensures { Gives (λ path. option_map path_text path) result
        (within (is_if_given is_lock_path) (string_given text)) }
{
    let Some(text) = text else {
        return Ok(None);
    };
    match LockPath::read(text) {
        Some(path) => Ok(Some(path)),
        None => Err(Rule::J2),
    }
}

/// Reads the lock id, if one is given.
///
/// # Errors
///
/// J2 if the text is not a lock id.
fn id_of(text: Option<String>) -> Result<Option<LockId>, Rule>
    ensures { result ≡ read_if_given lock_id_in (string_given text) }
{
    let Some(text) = text else {
        return Ok(None);
    };
    match LockId::read(text.as_str()) {
        Some(id) => Ok(Some(id)),
        None => Err(Rule::J2),
    }
}

/// Reads the limit, if one is given.
///
/// # Errors
///
/// J2 if the text is not an optional `-` and 1 to 10 digits.
fn limit_of(text: Option<String>) -> Result<Option<i64>, Rule>
    ensures { result ≡ read_if_given limit_in (string_given text) }
{
    let Some(text) = text else {
        return Ok(None);
    };
    match limit_in(text.as_str()) {
        Some(limit) => Ok(Some(limit)),
        None => Err(Rule::J2),
    }
}

/// The number that an optional `-` and 1 to 10 digits write; `None` for any other text.
fn limit_in(text: &str) -> Option<i64>
    ensures { result ≡ limit_in text.now }
{
    match text.strip_prefix('-') {
        Some(digits) => Some(-number_in(digits)?),
        None => number_in(text),
    }
}

/// The number that 1 to 10 digits write; `None` for any other text.
fn number_in(text: &str) -> Option<i64>
    ensures { result ≡ option_map pos (short_number_in text.now) }
{
    if text.is_empty() || text.len() > 10 || !are_digits(text.as_bytes()) {
        return None;
    }
    text.parse().ok()
}

/// Whether each byte is a digit.
fn are_digits(text: &[u8]) -> bool
    ensures { result ≡ list_all is_ascii_digit text.now }
{
    text.iter().all(u8::is_ascii_digit)
}
