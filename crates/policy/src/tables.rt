//! The tables of a policy file, and the values at their keys.

ghost use Rattle.std.specs.Prelude.{◌≡◌, IfOk, MatchResult, Some, None, nat_le, length, map, option_map, string_bytes};
ghost use Rattle.std.specs.BTreeMap.{keys as btree_keys};
ghost use Rattle.std.specs.List.{list_all};
ghost use Rattle.toml.specs.Data.{as_table};
ghost use Rattle.toml.specs.View.{view, table_view};
ghost use Rattle.policy.specs.declared.faults.FaultCode.TheVariants.{Y2, Y3, Y5};
ghost use Rattle.policy.specs.Ranges.{texts, is_count, are_entries};
ghost use Rattle.policy.specs.Language.{value_at, text_at, whole_at, texts_at, entries_at, as_values, all_texts, is_name_of, has_only, kind_of, test_of, natural_within};
ghost use Rattle.policy.specs.Reading.{at_key, at_place, Finds, FindsInMemory, Parses, Tests};
ghost use Rattle.names.specs.Names.{repo_text, ref_text};
ghost use Rattle.names.specs.Texts.{is_repo, is_ref};

use crate::entries::is_text_for;
use crate::faults::{Fault, FaultCode, Place, PolicyFault};
use crate::keys::Key;
use names::{RefName, RepoName};
use std::alloc::{AllocError, Global};
use toml::{Table, Value};

/// The value at the key.
fn value_at<'a>(table: &'a Table, key: Key) -> Option<&'a Value>
    ensures { option_map (λ value. view value.now) result
        ≡ value_at (table_view table.entry.now) key }
{
    table.get(key.name())
}

/// The text at the key.
#[tactic(auto, unfolding(crate::specs::Language::text_at))]
fn text_at<'a>(table: &'a Table, key: Key) -> Option<&'a str>
    ensures { option_map (λ text. text.now) result ≡ text_at (table_view table.entry.now) key }
{
    match value_at(table, key) {
        Some(value) => value.as_str(),
        None => None,
    }
}

/// The whole number at the key.
#[tactic(auto, unfolding(crate::specs::Language::whole_at))]
fn whole_at(table: &Table, key: Key) -> Option<i64>
    ensures { result ≡ whole_at (table_view table.now) key }
{
    match value_at(table, key) {
        Some(value) => value.as_integer(),
        None => None,
    }
}

/// The values of an array.
fn as_values(value: &Value) -> Option<&[Value]>
    ensures { option_map (λ values. map view values.now) result ≡ as_values (view value.entry.now) }
{
    match value.as_array() {
        Some(values) => Some(values.as_slice()),
        None => None,
    }
}

/// The entries of the array at the key; empty if the key is missing.
#[tactic(auto, unfolding(crate::specs::Language::entries_at))]
fn entries_at<'a>(table: &'a Table, key: Key) -> Option<&'a [Value]>
    ensures { option_map (λ entries. map view entries.now) result
        ≡ entries_at (table_view table.entry.now) key }
{
    match value_at(table, key) {
        Some(value) => as_values(value),
        None => Some(&[]),
    }
}

/// Copies of the texts; `None` if one of the values is not a text.
fn copied_texts(alloc: Global, values: &[Value]) -> Result<Option<Vec<String>>, AllocError>
    ensures { IfOk result
        (λ copies. option_map (λ v. texts v.items) copies ≡ all_texts (map view values.now)) }
{
    let mut copies = Vec::new(alloc);
    for value in values {
        let Some(text) = value.as_str() else {
            return Ok(None);
        };
        copies.push(String::from_str(alloc, text)?)?;
    }
    Ok(Some(copies))
}

/// Copies of the texts of the array at the key.
#[tactic(auto, unfolding(crate::specs::Language::texts_at))]
fn texts_at(alloc: Global, table: &Table, key: Key) -> Result<Option<Vec<String>>, AllocError>
    ensures { IfOk result
        (λ copies. option_map (λ v. texts v.items) copies ≡ texts_at (table_view table.now) key) }
{
    let Some(value) = value_at(table, key) else {
        return Ok(None);
    };
    let Some(values) = as_values(value) else {
        return Ok(None);
    };
    copied_texts(alloc, values)
}

fn is_name_of(keys: &[Key], name: &str) -> bool
    ensures { result ≡ is_name_of keys.now name.now }
{
    keys.iter().any(|key| key.name() == name)
}

/// Whether each of the texts is valid among those at the key.
fn all_texts_for(key: Key, texts: &[String]) -> bool
    ensures { result ≡ list_all (λ text. test_of (kind_of key) (string_bytes text)) texts.now }
{
    texts.iter().all(|text| is_text_for(key, text.as_str()))
}

fn is_count(entries: &[String]) -> bool
    ensures { result ≡ is_count entries.now }
{
    !entries.is_empty() && entries.len() <= 64
}

/// Whether these are valid texts at the key: 1 to 64, each of them valid.
fn are_texts_for(key: Key, entries: &[String]) -> bool
    ensures { result ≡ are_entries (test_of (kind_of key)) (texts entries.now) }
{
    is_count(entries) && all_texts_for(key, entries)
}

/// Whether the table has no other keys.
fn has_only(keys: &[Key], table: &Table) -> bool
    ensures { result ≡ list_all
        (λ name. is_name_of keys.now (string_bytes name)) (btree_keys table.now) }
{
    table.keys().all(|name| is_name_of(keys, name.as_str()))
}

/// A table of the file, and its place.
#[derive(Clone, Copy)]
pub struct TableAt<'a> {
    pub table: &'a Table,
    pub place: Place,
}

impl<'a> TableAt<'a> {
    /// The entry as a table, at this place; the fault Y2 if it is not a table.
    pub fn read(entry: &'a Value, place: Place) -> Result<Self, Fault>
        ensures { MatchResult result
            (λ table. (as_table (view entry.entry.now) ≡ Some (table_view table.table.now))
            × (table.place ≡ place))
            (λ fault. (as_table (view entry.entry.now) ≡ None) × (fault ≡ at_place Y2 place)) }
    {
        match entry.as_table() {
            Some(table) => Ok(TableAt { table, place }),
            None => Err(Fault {
                code: FaultCode::Y2,
                place,
                key: None,
            }),
        }
    }

    /// The text at the key; Y2 if the key is missing or has another kind.
    pub fn text(&self, key: Key) -> Result<&'a str, Fault>
        ensures { Finds (λ text. text.now) (text_at (table_view self.now.table.now) key)
            (at_key Y2 self.now.place key) result }
    {
        text_at(self.table, key).ok_or(self.fault(FaultCode::Y2, key))
    }

    /// The whole number at the key; Y2 if the key is missing or has another kind.
    pub fn whole(&self, key: Key) -> Result<i64, Fault>
        ensures { Finds (λ number. number) (whole_at (table_view self.now.table.now) key)
            (at_key Y2 self.now.place key) result }
    {
        whole_at(self.table, key).ok_or(self.fault(FaultCode::Y2, key))
    }

    /// The texts of the array at the key; Y2 if the key is missing or has another kind, `Memory` if memory runs out.
    pub fn texts(&self, alloc: Global, key: Key) -> Result<Vec<String>, PolicyFault>
        ensures { FindsInMemory (λ copies. texts copies.items) (texts_at (table_view self.now.table.now) key)
            (at_key Y2 self.now.place key) result }
    {
        match texts_at(alloc, self.table, key)? {
            Some(copies) => Ok(copies),
            None => Err(self.fault(FaultCode::Y2, key).into()),
        }
    }

    /// The entries of the array at the key, empty if the key is missing; Y2 if it has another kind.
    pub fn entries(&self, key: Key) -> Result<&'a [Value], Fault>
        ensures { Finds (λ entries. map view entries.now) (entries_at (table_view self.now.table.now) key)
            (at_key Y2 self.now.place key) result }
    {
        entries_at(self.table, key).ok_or(self.fault(FaultCode::Y2, key))
    }

    /// Checks that the table has no other keys; else Y2.
    pub fn has_only(&self, keys: &[Key]) -> Result<(), Fault>
        ensures { Tests (has_only keys.now (table_view self.now.table.now))
            (at_place Y2 self.now.place) result }
    {
        if has_only(keys, self.table) {
            Ok(())
        } else {
            Err(Fault {
                code: FaultCode::Y2,
                place: self.place,
                key: None,
            })
        }
    }

    /// Checks that the text is valid at the key; else Y3.
    pub fn check_text(&self, key: Key, text: &str) -> Result<(), Fault>
        ensures { Tests (test_of (kind_of key) text.now) (at_key Y3 self.now.place key) result }
    {
        if is_text_for(key, text) {
            Ok(())
        } else {
            Err(self.fault(FaultCode::Y3, key))
        }
    }

    /// Reads the text at the key as a repository's name; Y3 if it is none, `Memory` if memory runs out.
    pub fn repo_name(&self, alloc: Global, key: Key, text: &str) -> Result<RepoName, PolicyFault>
        ensures { Parses repo_text (is_repo text.now) text.now (at_key Y3 self.now.place key) result }
    {
        match RepoName::read(String::from_str(alloc, text)?) {
            Some(name) => Ok(name),
            None => Err(self.fault(FaultCode::Y3, key).into()),
        }
    }

    /// Reads the text at the key as a ref; Y3 if it is none, `Memory` if memory runs out.
    pub fn ref_name(&self, alloc: Global, key: Key, text: &str) -> Result<RefName, PolicyFault>
        ensures { Parses ref_text (is_ref text.now) text.now (at_key Y3 self.now.place key) result }
    {
        match RefName::read(String::from_str(alloc, text)?) {
            Some(name) => Ok(name),
            None => Err(self.fault(FaultCode::Y3, key).into()),
        }
    }

    /// Checks that these are valid texts at the key: 1 to 64, each of them valid; else Y3.
    pub fn check_texts(&self, key: Key, entries: &[String]) -> Result<(), Fault>
        ensures { Tests (are_entries (test_of (kind_of key)) (texts entries.now))
            (at_key Y3 self.now.place key) result }
    {
        if are_texts_for(key, entries) {
            Ok(())
        } else {
            Err(self.fault(FaultCode::Y3, key))
        }
    }

    /// Checks that the number is at least `low` and at most `high`, and returns it unsigned; else Y3.
    pub fn check_whole(&self, key: Key, number: i64, low: u64, high: u64) -> Result<u64, Fault>
        ensures { Finds
            (λ n. n) (natural_within low high number) (at_key Y3 self.now.place key) result }
    {
        match u64::try_from(number) {
            Ok(natural) if low <= natural && natural <= high => Ok(natural),
            _ => Err(self.fault(FaultCode::Y3, key)),
        }
    }

    /// Checks that there are at most `most` entries; else Y5.
    pub fn check_count(&self, key: Key, entries: &[Value], most: usize) -> Result<(), Fault>
        ensures { Tests (nat_le (length entries.now) most) (at_key Y5 self.now.place key) result }
    {
        if entries.len() <= most {
            Ok(())
        } else {
            Err(self.fault(FaultCode::Y5, key))
        }
    }

    /// A fault at the key.
    pub fn fault(&self, code: FaultCode, key: Key) -> Fault
        ensures { result ≡ at_key code self.now.place key }
    {
        Fault {
            code,
            place: self.place,
            key: Some(key),
        }
    }
}
