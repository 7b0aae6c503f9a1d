//! Reads a policy from the text of its file.

ghost use Rattle.std.specs.Prelude.{◌≡◌, ◌≤◌, IfOk, IfErr, MatchResult, None, Some, [], length, map};
ghost use Rattle.toml.specs.View.{view, table_view};
ghost use Rattle.policy.specs.declared.faults.FaultCode.TheVariants.{Y4};
ghost use Rattle.policy.specs.Ranges.{texts, most_repos, most_rows, is_among};
ghost use Rattle.policy.specs.Repos.{names_of};
ghost use Rattle.policy.specs.Language.{top_keys, repo_keys, row_keys};
ghost use Rattle.policy.specs.Reading.{Reads, IfRefused, at_place, at_key, table_fault, entry_fault, repos_fault, rows_fault, document_fault, rights_named, repo_in, row_in, table_in, repos_in, rows_in, policy_in, Spells, fault_in};
ghost use Rattle.policy.specs.Values.{repo_view, row_view, policy_view, AreRepos, IsTop};

use crate::entries::{effect_named, right_named};
use crate::faults::{Fault, FaultCode, Place, PolicyFault};
use crate::keys::{Key, REPO_KEYS, ROW_KEYS, TOP_KEYS};
use crate::policies::{Policy, named};
use crate::repos::Repo;
use crate::rows::Row;
use crate::tables::TableAt;
use model::Right;
use std::alloc::{AllocError, Global};
use toml::{Table, Value};

/// The largest quota of a repository, in bytes.
const LARGEST_QUOTA: u64 = 1_099_511_627_776;

/// The longest policy file, in bytes.
pub const LONGEST_FILE: usize = 1_048_576;

/// The longest lifetime of a token, in seconds.
const LONGEST_LIFE: u64 = 86_400;

/// The largest number of repositories in a policy.
const MOST_REPOS: usize = 256;

/// The largest number of rows in a policy.
const MOST_ROWS: usize = 1000;

/// The rights with these names.
fn rights_named(alloc: Global, names: &[String]) -> Result<Vec<Right>, AllocError>
    ensures { IfOk result (λ rights. rights.items ≡ rights_named (texts names.now)) }
{
    let mut rights = Vec::new(alloc);
    for name in names {
        if let Some(right) = right_named(name.as_str()) {
            rights.push(right)?;
        }
    }
    Ok(rights)
}

/// The repository in a table.
#[tactic(auto, unfolding(crate::specs::Reading::table_fault, crate::specs::Reading::repo_in))]
fn read_repo(alloc: Global, table: TableAt) -> Result<Repo, PolicyFault>
    ensures { Reads (table_fault table.entry.place repo_keys (table_view table.entry.table.now))
        (λ repo. repo_view repo ≡ repo_in (table_view table.entry.table.now)) result }
{
    let name = table.text(Key::Name)?;
    let default_ref = table.text(Key::DefaultRef)?;
    let quota = table.whole(Key::Quota)?;
    table.has_only(&REPO_KEYS)?;
    Ok(Repo {
        name: table.repo_name(alloc, Key::Name, name)?,
        default_ref: table.ref_name(alloc, Key::DefaultRef, default_ref)?,
        quota: table.check_whole(Key::Quota, quota, 0, LARGEST_QUOTA)?,
    })
}

/// The row in a table.
#[tactic(auto, unfolding(crate::specs::Reading::table_fault, crate::specs::Reading::row_in))]
fn read_row(alloc: Global, table: TableAt) -> Result<Row, PolicyFault>
    ensures { Reads (table_fault table.entry.place row_keys (table_view table.entry.table.now))
        (λ row. row_view row ≡ row_in (table_view table.entry.table.now)) result }
{
    let effect = table.text(Key::Effect)?;
    let users = table.texts(alloc, Key::Users)?;
    let repos = table.texts(alloc, Key::Repos)?;
    let refs = table.texts(alloc, Key::Refs)?;
    let paths = table.texts(alloc, Key::Paths)?;
    let rights = table.texts(alloc, Key::Rights)?;
    table.has_only(&ROW_KEYS)?;
    let effect = effect_named(effect).ok_or(table.fault(FaultCode::Y3, Key::Effect))?;
    table.check_texts(Key::Users, &users)?;
    table.check_texts(Key::Repos, &repos)?;
    table.check_texts(Key::Refs, &refs)?;
    table.check_texts(Key::Paths, &paths)?;
    table.check_texts(Key::Rights, &rights)?;
    Ok(Row {
        effect,
        users,
        repos,
        refs,
        paths,
        rights: rights_named(alloc, &rights)?,
    })
}

/// The repository in the entry with this number.
#[tactic(auto, unfolding(crate::specs::Reading::entry_fault))]
fn read_repo_entry(alloc: Global, entry: &Value, number: u32) -> Result<Repo, PolicyFault>
    ensures { Reads (entry_fault (Place.Repo number) repo_keys (view entry.now))
        (λ repo. repo_view repo ≡ repo_in (table_in (view entry.now))) result }
{
    read_repo(alloc, TableAt::read(entry, Place::Repo(number))?)
}

/// The row in the entry with this number.
#[tactic(auto, unfolding(crate::specs::Reading::entry_fault))]
fn read_row_entry(alloc: Global, entry: &Value, number: u32) -> Result<Row, PolicyFault>
    ensures { Reads (entry_fault (Place.Row number) row_keys (view entry.now))
        (λ row. row_view row ≡ row_in (table_in (view entry.now))) result }
{
    read_row(alloc, TableAt::read(entry, Place::Row(number))?)
}

/// Whether one of the repositories has the name.
fn is_taken(repos: &[Repo], name: &str) -> bool
    ensures { result ≡ is_among name.now (names_of repos.now) }
{
    named(repos, name).is_some()
}

/// A fault of the file as a whole.
fn of_file(code: FaultCode) -> Fault
    ensures { result ≡ at_place code Place.File }
{
    Fault {
        code,
        place: Place::File,
        key: None,
    }
}

/// The fault that the repository with this number has the name of an earlier one.
fn repeated(number: u32) -> Fault
    ensures { result ≡ at_key Y4 (Place.Repo number) Key.Name }
{
    Fault {
        code: FaultCode::Y4,
        place: Place::Repo(number),
        key: Some(Key::Name),
    }
}

/// The repositories of the entries; each name differs from the earlier ones.
fn read_repos(alloc: Global, entries: &[Value]) -> Result<Vec<Repo>, PolicyFault>
    requires { length entries.now ≤ most_repos }
    ensures { Reads (repos_fault 1 [] (map view entries.now))
        (λ repos. AreRepos (repos_in (map view entries.now)) repos.items) result }
{
    let mut repos = Vec::new(alloc);
    for (index, entry) in entries.iter().enumerate() {
        let number = index as u32 + 1;
        let repo = read_repo_entry(alloc, entry, number)?;
        if is_taken(&repos, repo.name.as_str()) {
            return Err(repeated(number).into());
        }
        repos.push(repo)?;
    }
    Ok(repos)
}

/// The rows of the entries.
fn read_rows(alloc: Global, entries: &[Value]) -> Result<Vec<Row>, PolicyFault>
    requires { length entries.now ≤ most_rows }
    ensures { Reads (rows_fault 1 (map view entries.now))
        (λ rows. map row_view rows.items ≡ rows_in (map view entries.now)) result }
{
    let mut rows = Vec::new(alloc);
    for (index, entry) in entries.iter().enumerate() {
        let row = read_row_entry(alloc, entry, index as u32 + 1)?;
        rows.push(row)?;
    }
    Ok(rows)
}

/// The values of the keys at the top of a file.
#[derive(Clone, Copy)]
struct Top<'a> {
    base: &'a str,
    token_seconds: u64,
    repos: &'a [Value],
    rows: &'a [Value],
}

/// The keys at the top of the file.
#[tactic(auto, unfolding(crate::specs::Reading::table_fault))]
fn read_top(table: &Table) -> Result<Top<'_>, Fault>
    ensures { MatchResult result
        (λ top. (table_fault Place.Top top_keys (table_view table.entry.now) ≡ None)
        × IsTop (table_view table.entry.now) top)
        (λ fault. table_fault Place.Top top_keys (table_view table.entry.now) ≡ Some fault) }
{
    let top = TableAt {
        table,
        place: Place::Top,
    };
    let base = top.text(Key::Base)?;
    let token_seconds = top.whole(Key::TokenSeconds)?;
    let repos = top.entries(Key::Repo)?;
    let rows = top.entries(Key::Row)?;
    top.has_only(&TOP_KEYS)?;
    top.check_text(Key::Base, base)?;
    let token_seconds = top.check_whole(Key::TokenSeconds, token_seconds, 1, LONGEST_LIFE)?;
    top.check_count(Key::Repo, repos, MOST_REPOS)?;
    top.check_count(Key::Row, rows, MOST_ROWS)?;
    Ok(Top {
        base,
        token_seconds,
        repos,
        rows,
    })
}

/// The policy in a file's table.
fn read_document(alloc: Global, table: &Table) -> Result<Policy, PolicyFault>
    ensures { Reads (document_fault (table_view table.now))
        (λ policy. policy_view policy ≡ policy_in (table_view table.now)) result }
{
    let top = read_top(table)?;
    let repos = read_repos(alloc, top.repos)?;
    let rows = read_rows(alloc, top.rows)?;
    Ok(Policy {
        base: String::from_str(alloc, top.base)?,
        token_seconds: top.token_seconds,
        repos,
        rows,
    })
}

impl Policy {
    /// Reads the policy from the text of a file.
    ///
    /// The text is TOML. `docs/POLICY.md` lists its keys, their kinds and their ranges.
    ///
    /// # Errors
    ///
    /// `Refused` with the first fault if the text is not a policy, and `Memory` if memory runs out.
    pub fn read(alloc: Global, source: &str) -> Result<Policy, PolicyFault>
        ensures spelled { IfOk result (λ policy. Spells source.now (policy_view policy)) }
        ensures refused { IfErr result
            (λ fault. IfRefused fault (λ first. fault_in source.now ≡ Some first)) }
    {
        if source.len() > LONGEST_FILE {
            return Err(of_file(FaultCode::Y5).into());
        }
        match toml::table_from_str(alloc, source) {
            Ok(table) => read_document(alloc, &table),
            Err(error) if error.is_memory() => Err(PolicyFault::Memory),
            Err(_) => Err(of_file(FaultCode::Y1).into()),
        }
    }

    /// Reads the policy from the bytes of a file, as [`Policy::read`] does from a text.
    ///
    /// # Errors
    ///
    /// Those of [`Policy::read`]. Bytes within the length limit that are not UTF-8 count as not TOML.
    pub fn read_bytes(alloc: Global, source: &[u8]) -> Result<Policy, PolicyFault>
        ensures spelled { IfOk result (λ policy. Spells source.now (policy_view policy)) }
        ensures refused { IfErr result
            (λ fault. IfRefused fault (λ first. fault_in source.now ≡ Some first)) }
    {
        if source.len() > LONGEST_FILE {
            return Err(of_file(FaultCode::Y5).into());
        }
        match str::from_utf8(source) {
            Ok(text) => Policy::read(alloc, text),
            Err(_) => Err(of_file(FaultCode::Y1).into()),
        }
    }
}
