//! The lines of locks, objects, tokens, verdicts and foreseen replies.

ghost use Rattle.std.specs.Prelude.{◌≡◌, ℕ, List, IfOk, string_bytes};
ghost use Rattle.names.specs.Names.{path_text, repo_text, user_text};
ghost use Rattle.model.specs.Moments.{moment_text};
ghost use Rattle.pushcheck.specs.Verdicts.{verdict_view};
ghost use Rattle.locks.specs.Finding.{lock_seen};
ghost use Rattle.operator.specs.Lines.{content_line, damage_line, lock_line, object_line, operation_word, removal_line, reply_line, valid_token_line, verdict_line};
ghost use Rattle.operator.specs.Escapes.{shown};

use crate::escapes::{Destination, shown};
use desk::Reply;
use locks::Lock;
use names::{LockPath, Oid, Operation, Size, moment_text};
use pushcheck::PushVerdict;
use std::alloc::{AllocError, Global};
use tables::TokenRow;
use uploads::Stored;

/// The line with the verdict on a path of a push.
fn verdict_line(alloc: Global, path: &LockPath, verdict: &PushVerdict) -> Result<String, AllocError>
    ensures { IfOk result (λ text. string_bytes text
        ≡ verdict_line (path_text path.now) (verdict_view verdict.now)) }
{
    let path = path.as_str();
    match verdict {
        PushVerdict::Ok => format!(in alloc; "ok: {path}"),
        PushVerdict::Denied(row) => format!(in alloc; "denied by row {row}: {path}"),
        PushVerdict::Locked(owner, id) => {
            let (owner, id) = (owner.as_str(), id.get());
            format!(in alloc; "locked by {owner}, id {id}: {path}")
        }
    }
}

/// The same, as it is written.
pub(crate) fn shown_verdict(
    alloc: Global,
    path: &LockPath,
    verdict: &PushVerdict,
    destination: Destination,
) -> Result<Vec<u8>, AllocError>
    ensures { IfOk result (λ bytes. bytes.items
        ≡ shown destination (verdict_line (path_text path.now) (verdict_view verdict.now))) }
{
    let line = verdict_line(alloc, path, verdict)?;
    shown(alloc, line.as_bytes(), destination)
}

/// The line of a lock.
fn lock_line(alloc: Global, row: &Lock) -> Result<String, AllocError>
    ensures { IfOk result (λ text. (repo : List ℕ)
        → string_bytes text ≡ lock_line (lock_seen repo row.now) (moment_text row.now.moment)) }
{
    let moment = moment_text(alloc, row.moment)?;
    let (id, name, owner) = (row.id.get(), row.ref_name.as_str(), row.owner.as_str());
    let path = row.path.as_str();
    format!(in alloc; "{id} {name} {owner} {moment} {path}")
}

/// The same, as it is written.
pub(crate) fn shown_lock(
    alloc: Global,
    row: &Lock,
    destination: Destination,
) -> Result<Vec<u8>, AllocError>
    ensures { IfOk result (λ bytes. (repo : List ℕ) → bytes.items
        ≡ shown destination (lock_line (lock_seen repo row.now) (moment_text row.now.moment))) }
{
    let line = lock_line(alloc, row)?;
    shown(alloc, line.as_bytes(), destination)
}

/// The line of an object. Its name is of digits, so it is the same on a terminal.
pub(crate) fn object_line(alloc: Global, row: &Stored) -> Result<String, AllocError>
    ensures { IfOk result (λ text. string_bytes text ≡ object_line row.now.oid row.now.size) }
{
    let (name, size) = (row.oid.text(), row.size.get());
    format!(in alloc; "{name} {size}")
}

/// The word for an operation, as `authenticate` takes it.
fn operation_word(operation: Operation) -> &'static str
    ensures { result.now ≡ operation_word operation }
{
    match operation {
        Operation::Download => "download",
        Operation::Upload => "upload",
    }
}

/// The line of a valid token. It has only the first 8 digits of the digest.
fn valid_token_line(alloc: Global, row: &TokenRow) -> Result<String, AllocError>
    ensures { IfOk result (λ text. string_bytes text ≡ valid_token_line
        (user_text row.now.user) row.now.operation (moment_text row.now.expires) row.now.digest) }
{
    let (user, operation) = (row.user.as_str(), operation_word(row.operation));
    let moment = moment_text(alloc, row.expires)?;
    let digits = hex::encode(alloc, &row.digest[..4])?;
    format!(in alloc; "{user} {operation} {moment} {digits}")
}

/// The same, as it is written.
pub(crate) fn shown_token(
    alloc: Global,
    row: &TokenRow,
    destination: Destination,
) -> Result<Vec<u8>, AllocError>
    ensures { IfOk result (λ bytes. bytes.items ≡ shown destination (valid_token_line
        (user_text row.now.user) row.now.operation (moment_text row.now.expires) row.now.digest)) }
{
    let line = valid_token_line(alloc, row)?;
    shown(alloc, line.as_bytes(), destination)
}

/// The line of a damaged object.
pub(crate) fn damage_line(alloc: Global, row: &Stored) -> Result<String, AllocError>
    ensures { IfOk result (λ text. string_bytes text
        ≡ damage_line (repo_text row.now.repo) row.now.oid) }
{
    let (repo, name) = (row.repo.as_str(), row.oid.text());
    format!(in alloc; "damaged {repo} {name}")
}

/// The line of an object that was removed because it is damaged.
pub(crate) fn removal_line(alloc: Global, row: &Stored) -> Result<String, AllocError>
    ensures { IfOk result (λ text. string_bytes text
        ≡ removal_line (repo_text row.now.repo) row.now.oid) }
{
    let (repo, name) = (row.repo.as_str(), row.oid.text());
    format!(in alloc; "removed {repo} {name}")
}

/// The first line of a reply: its status, and the code of the rule that refuses the request, or `ok`.
pub(crate) fn reply_line(alloc: Global, reply: &Reply) -> Result<String, AllocError>
    ensures { IfOk result (λ text. string_bytes text
        ≡ reply_line reply.now.status reply.now.rule) }
{
    let status = reply.status.as_u16();
    match reply.rule {
        Some(rule) => format!(in alloc; "{status} {rule}"),
        None => format!(in alloc; "{status} ok"),
    }
}

/// The line of the object that a reply sends.
pub(crate) fn content_line(alloc: Global, name: Oid, size: Size) -> Result<String, AllocError>
    ensures { IfOk result (λ text. string_bytes text ≡ content_line name size) }
{
    let (name, size) = (name.text(), size.get());
    format!(in alloc; "content {name} {size}")
}
