//! Names that are texts: of repositories, users, refs and paths.
//!
//! A value of such a type owns a text in range, so its holder has nothing left to test. Two names are
//! equal if their bytes are.

ghost use Rattle.std.specs.Prelude.{◌≡◌, ◌↔◌, IsTrue, IsSome, IfOk, IfSome, Some, codes, not, string_bytes};
ghost use Rattle.std.specs.List.{list_all};
ghost use Rattle.names.specs.Texts.{is_name_byte, is_ref_byte, is_path_byte, is_path_part, is_empty, has_two_dots, begins, parts, is_user, is_repo, is_ref, is_lock_path};

use std::alloc::{AllocError, Global};
use std::fmt;

/// Whether the byte is one of `a-z 0-9 _ -`.
fn is_name_byte(byte: u8) -> bool
    ensures { result ≡ is_name_byte byte }
{
    byte.is_ascii_lowercase() || byte.is_ascii_digit() || byte == b'_' || byte == b'-'
}

/// Whether the byte is one of `A-Z a-z 0-9 / . _ -`.
fn is_ref_byte(byte: u8) -> bool
    ensures { result ≡ is_ref_byte byte }
{
    is_name_byte(byte) || byte.is_ascii_uppercase() || byte == b'/' || byte == b'.'
}

/// Whether the byte is neither a control character nor a backslash.
fn is_path_byte(byte: u8) -> bool
    ensures { result ≡ is_path_byte byte }
{
    byte >= 0x20 && byte != 0x7f && byte != b'\\'
}

/// Whether the part of a path is neither empty nor `.` or `..`.
fn is_path_part(part: &str) -> bool
    ensures { result ≡ is_path_part part.now }
{
    !part.is_empty() && part != "." && part != ".."
}

fn has_name_bytes(text: &str) -> bool
    ensures { result ≡ list_all is_name_byte text.now }
{
    text.bytes().all(is_name_byte)
}

fn has_ref_bytes(text: &str) -> bool
    ensures { result ≡ list_all is_ref_byte text.now }
{
    text.bytes().all(is_ref_byte)
}

fn has_path_bytes(text: &str) -> bool
    ensures { result ≡ list_all is_path_byte text.now }
{
    text.bytes().all(is_path_byte)
}

fn has_path_parts(text: &str) -> bool
    ensures { result ≡ list_all is_path_part (parts text.now) }
{
    text.split('/').all(|part| is_path_part(part))
}

fn has_no_empty_part(text: &str) -> bool
    ensures { result ≡ list_all (λ part. not (is_empty part)) (parts text.now) }
{
    text.split('/').all(|part| !part.is_empty())
}

fn has_two_dots(text: &str) -> bool
    ensures { result ≡ has_two_dots text.now }
{
    text.contains("..")
}

fn begins_with_refs(text: &str) -> bool
    ensures { result ≡ begins (codes "refs/") text.now }
{
    text.starts_with("refs/")
}

fn is_user(text: &str) -> bool
    ensures { result ≡ is_user text.now }
{
    !text.is_empty() && text.len() <= 40 && has_name_bytes(text)
}

fn is_repo(text: &str) -> bool
    ensures { result ≡ is_repo text.now }
{
    match text.split_once('/') {
        Some((owner, name)) => is_user(owner) && is_user(name),
        None => false,
    }
}

fn is_ref(text: &str) -> bool
    ensures { result ≡ is_ref text.now }
{
    begins_with_refs(text)
        && text.len() <= 255
        && has_ref_bytes(text)
        && !has_two_dots(text)
        && has_no_empty_part(text)
}

fn is_lock_path(text: &str) -> bool
    ensures { result ≡ is_lock_path text.now }
{
    !text.is_empty() && text.len() <= 1024 && has_path_bytes(text) && has_path_parts(text)
}

/// A user: 1 to 40 bytes of `a-z 0-9 _ -`.
#[derive(Debug, Drop, PartialEq, Eq, PartialOrd, Ord, Hash)]
pub struct UserName {
    user: String,
    pub ghost in_range: { IsTrue (is_user (string_bytes user)) },
}

impl UserName {
    ghost use Rattle.names.specs.Names.{user_text};

    /// Whether the text is a user.
    pub fn accepts(text: &str) -> bool
        ensures { result ≡ is_user text.now }
    {
        is_user(text)
    }

    /// Reads a user; `None` exactly if the text is out of range.
    pub fn read(text: String) -> Option<Self>
        ensures accepted { IsSome result ↔ IsTrue (is_user (string_bytes text)) }
        ensures value { IfSome result (λ name. user_text name ≡ string_bytes text) }
    {
        if is_user(text.as_str()) {
            Some(UserName { user: text })
        } else {
            None
        }
    }

    /// Returns a copy, unless memory runs out.
    pub fn to_owned(&self, alloc: Global) -> Result<Self, AllocError>
        ensures { IfOk result (λ copy. user_text copy ≡ user_text self.now) }
    {
        let user = self.user.as_str().to_owned(alloc)?;
        Ok(UserName { user })
    }

    /// The text, which is in range.
    pub fn as_str(&self) -> &str
        ensures value { result.now ≡ user_text self.now }
        ensures in_range { IsTrue (is_user result.now) }
    {
        self.user.as_str()
    }
}

/// Writes the text.
impl fmt::Display for UserName {
    ghost use Rattle.names.specs.Names.{user_text};

    ghost output = { λ name. Some (user_text name) };

    fn fmt<W: fmt::Write>(&self, f: &mut fmt::Formatter<W>) -> fmt::Result {
        f.write_str(self.user.as_str())
    }
}

/// A repository: `owner/name`, each of 1 to 40 bytes of `a-z 0-9 _ -`.
#[derive(Debug, Drop, PartialEq, Eq, PartialOrd, Ord, Hash)]
pub struct RepoName {
    repo: String,
    pub ghost in_range: { IsTrue (is_repo (string_bytes repo)) },
}

impl RepoName {
    ghost use Rattle.names.specs.Names.{repo_text};

    /// Whether the text is a repository.
    pub fn accepts(text: &str) -> bool
        ensures { result ≡ is_repo text.now }
    {
        is_repo(text)
    }

    /// Reads a repository; `None` exactly if the text is out of range.
    pub fn read(text: String) -> Option<Self>
        ensures accepted { IsSome result ↔ IsTrue (is_repo (string_bytes text)) }
        ensures value { IfSome result (λ name. repo_text name ≡ string_bytes text) }
    {
        if is_repo(text.as_str()) {
            Some(RepoName { repo: text })
        } else {
            None
        }
    }

    /// Returns a copy, unless memory runs out.
    pub fn to_owned(&self, alloc: Global) -> Result<Self, AllocError>
        ensures { IfOk result (λ copy. repo_text copy ≡ repo_text self.now) }
    {
        let repo = self.repo.as_str().to_owned(alloc)?;
        Ok(RepoName { repo })
    }

    /// The text, which is in range.
    pub fn as_str(&self) -> &str
        ensures value { result.now ≡ repo_text self.now }
        ensures in_range { IsTrue (is_repo result.now) }
    {
        self.repo.as_str()
    }
}

/// Writes the text.
impl fmt::Display for RepoName {
    ghost use Rattle.names.specs.Names.{repo_text};

    ghost output = { λ name. Some (repo_text name) };

    fn fmt<W: fmt::Write>(&self, f: &mut fmt::Formatter<W>) -> fmt::Result {
        f.write_str(self.repo.as_str())
    }
}

/// A ref of Git: at most 255 bytes of `A-Z a-z 0-9 / . _ -` that begin with `refs/`, with no `..`
/// and no empty part between slashes or at the end.
#[derive(Debug, Drop, PartialEq, Eq, PartialOrd, Ord, Hash)]
pub struct RefName {
    name: String,
    pub ghost in_range: { IsTrue (is_ref (string_bytes name)) },
}

impl RefName {
    ghost use Rattle.names.specs.Names.{ref_text};

    /// Whether the text is a ref.
    pub fn accepts(text: &str) -> bool
        ensures { result ≡ is_ref text.now }
    {
        is_ref(text)
    }

    /// Reads a ref; `None` exactly if the text is out of range.
    pub fn read(text: String) -> Option<Self>
        ensures accepted { IsSome result ↔ IsTrue (is_ref (string_bytes text)) }
        ensures value { IfSome result (λ name. ref_text name ≡ string_bytes text) }
    {
        if is_ref(text.as_str()) {
            Some(RefName { name: text })
        } else {
            None
        }
    }

    /// Returns a copy, unless memory runs out.
    pub fn to_owned(&self, alloc: Global) -> Result<Self, AllocError>
        ensures { IfOk result (λ copy. ref_text copy ≡ ref_text self.now) }
    {
        let name = self.name.as_str().to_owned(alloc)?;
        Ok(RefName { name })
    }

    /// The text, which is in range.
    pub fn as_str(&self) -> &str
        ensures value { result.now ≡ ref_text self.now }
        ensures in_range { IsTrue (is_ref result.now) }
    {
        self.name.as_str()
    }
}

/// Writes the text.
impl fmt::Display for RefName {
    ghost use Rattle.names.specs.Names.{ref_text};

    ghost output = { λ name. Some (ref_text name) };

    fn fmt<W: fmt::Write>(&self, f: &mut fmt::Formatter<W>) -> fmt::Result {
        f.write_str(self.name.as_str())
    }
}

/// A path that may be locked: 1 to 1,024 bytes of UTF-8, with no control character (below 0x20, or
/// 0x7F), no backslash, and between slashes no part that is empty, `.` or `..`.
#[derive(Debug, Drop, PartialEq, Eq, PartialOrd, Ord, Hash)]
pub struct LockPath {
    path: String,
    pub ghost in_range: { IsTrue (is_lock_path (string_bytes path)) },
}

impl LockPath {
    ghost use Rattle.names.specs.Names.{path_text};

    /// Whether the text is a path.
    pub fn accepts(text: &str) -> bool
        ensures { result ≡ is_lock_path text.now }
    {
        is_lock_path(text)
    }

    /// Reads a path; `None` exactly if the text is out of range.
    pub fn read(text: String) -> Option<Self>
        ensures accepted { IsSome result ↔ IsTrue (is_lock_path (string_bytes text)) }
        ensures value { IfSome result (λ name. path_text name ≡ string_bytes text) }
    {
        if is_lock_path(text.as_str()) {
            Some(LockPath { path: text })
        } else {
            None
        }
    }

    /// Returns a copy, unless memory runs out.
    pub fn to_owned(&self, alloc: Global) -> Result<Self, AllocError>
        ensures { IfOk result (λ copy. path_text copy ≡ path_text self.now) }
    {
        let path = self.path.as_str().to_owned(alloc)?;
        Ok(LockPath { path })
    }

    /// The text, which is in range.
    pub fn as_str(&self) -> &str
        ensures value { result.now ≡ path_text self.now }
        ensures in_range { IsTrue (is_lock_path result.now) }
    {
        self.path.as_str()
    }
}

/// Writes the text.
impl fmt::Display for LockPath {
    ghost use Rattle.names.specs.Names.{path_text};

    ghost output = { λ name. Some (path_text name) };

    fn fmt<W: fmt::Write>(&self, f: &mut fmt::Formatter<W>) -> fmt::Result {
        f.write_str(self.path.as_str())
    }
}
