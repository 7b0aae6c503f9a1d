//! Calls of `locks` and of `pushcheck`.

use crate::Given;
use crate::fault::Fault;
use crate::words::{answer, count, lock_id, path, ref_name, repo, user, word};
use locks::{Lock, LockFault};
use names::{LockPath, Moment};
use pushcheck::PushVerdict;
use std::alloc::Global;
use store::Store;
use tables::NewLock;

/// A lock, for a person to read.
fn lock_text(alloc: Global, lock: &Lock) -> Result<String, Fault> {
    let (id, moment) = (lock.id.get(), lock.moment.get());
    let (name, path) = (lock.ref_name.as_str(), lock.path.as_str());
    let owner = lock.owner.as_str();
    Ok(format!(in alloc; "{id} {name} {path} {owner} {moment}\n")?)
}

/// The lines of locks.
fn lines(alloc: Global, locks: &[Lock]) -> Result<String, Fault> {
    let mut text = String::new(alloc);
    for lock in locks.iter() {
        text.push_str(lock_text(alloc, lock)?.as_str())?;
    }
    Ok(text)
}

/// The line of the lock, if there is one.
fn line(alloc: Global, found: &Option<Lock>) -> Result<String, Fault> {
    match found {
        Some(lock) => lock_text(alloc, lock),
        None => Ok(String::new(alloc)),
    }
}

/// The line of a lock that was made, or that holds the path.
fn made(alloc: Global, word: &str, lock: &Lock) -> Result<String, Fault> {
    let lock = lock_text(alloc, lock)?;
    Ok(format!(in alloc; "{word} {lock}")?)
}

/// Makes a lock: its repository, its ref, its owner, and its path.
fn create<S: Store>(
    alloc: Global,
    now: Moment,
    store: &mut S,
    words: &[&str],
) -> Result<String, Fault> {
    let repo = repo(alloc, word(words, 0)?)?;
    let ref_name = ref_name(alloc, word(words, 1)?)?;
    let owner = user(alloc, word(words, 2)?)?;
    let path = path(alloc, word(words, 3)?)?;
    let lock = NewLock {
        repo: &repo,
        ref_name: &ref_name,
        path: &path,
        owner: &owner,
        moment: now,
    };
    match locks::create(alloc, store, &lock) {
        Ok(lock) => made(alloc, "made", &lock),
        Err(LockFault::Held(lock)) => made(alloc, "held", &lock),
        Err(LockFault::UsedUp) => Ok("used up\n".to_owned(alloc)?),
        Err(LockFault::Store(fault)) => Err(fault.into()),
    }
}

/// Removes the lock of a repository and an id.
fn remove<S: Store>(alloc: Global, store: &mut S, words: &[&str]) -> Result<String, Fault> {
    let repo = repo(alloc, word(words, 0)?)?;
    let id = lock_id(word(words, 1)?)?;
    answer(alloc, locks::remove(store, &repo, id)?)
}

/// The lock of a repository, a ref and a path.
fn at<S: Store>(alloc: Global, store: &mut S, words: &[&str]) -> Result<String, Fault> {
    let repo = repo(alloc, word(words, 0)?)?;
    let ref_name = ref_name(alloc, word(words, 1)?)?;
    let path = path(alloc, word(words, 2)?)?;
    line(alloc, &locks::at(store, &repo, &ref_name, &path)?)
}

/// The lock of a repository and an id.
fn with<S: Store>(alloc: Global, store: &mut S, words: &[&str]) -> Result<String, Fault> {
    let repo = repo(alloc, word(words, 0)?)?;
    let id = lock_id(word(words, 1)?)?;
    line(alloc, &locks::get(store, &repo, id)?)
}

/// The locks of a repository.
fn all<S: Store>(alloc: Global, store: &mut S, words: &[&str]) -> Result<String, Fault> {
    let repo = repo(alloc, word(words, 0)?)?;
    lines(alloc, locks::all(alloc, store, &repo)?.as_slice())
}

/// The locks of a repository from an id on, as many as are read at once.
fn from<S: Store>(alloc: Global, store: &mut S, words: &[&str]) -> Result<String, Fault> {
    let repo = repo(alloc, word(words, 0)?)?;
    let id = lock_id(word(words, 1)?)?;
    lines(alloc, locks::window(alloc, store, &repo, id)?.as_slice())
}

/// The number of locks that a repository ever made.
fn number<S: Store>(alloc: Global, store: &mut S, words: &[&str]) -> Result<String, Fault> {
    let repo = repo(alloc, word(words, 0)?)?;
    count(alloc, u64::from(locks::made(store, &repo)?))
}

/// The line of a verdict.
fn verdict_line(alloc: Global, verdict: &PushVerdict) -> Result<String, Fault> {
    Ok(match verdict {
        PushVerdict::Ok => "ok\n".to_owned(alloc)?,
        PushVerdict::Denied(row) => format!(in alloc; "row {row}\n")?,
        PushVerdict::Locked(owner, id) => {
            let (owner, id) = (owner.as_str(), id.get());
            format!(in alloc; "locked {owner} {id}\n")?
        }
    })
}

/// The paths of these words.
fn paths(alloc: Global, words: &[&str]) -> Result<Vec<LockPath>, Fault> {
    let mut paths = Vec::new(alloc);
    for word in words.iter() {
        paths.push(path(alloc, word)?)?;
    }
    Ok(paths)
}

/// The verdicts on a push: the user, the repository, the ref, and the paths.
fn push<S: Store>(given: &Given<'_>, store: &mut S, words: &[&str]) -> Result<String, Fault> {
    let alloc = given.alloc;
    let Some(policy) = given.policy else {
        return Err(Fault::Script("there is no policy"));
    };
    let user = user(alloc, word(words, 0)?)?;
    let repo = repo(alloc, word(words, 1)?)?;
    let ref_name = ref_name(alloc, word(words, 2)?)?;
    let paths = paths(alloc, words.get(3..).unwrap_or(&[]))?;
    let paths = paths.as_slice();
    let verdicts = pushcheck::check(alloc, store, policy, &user, &repo, &ref_name, paths)?;
    let mut text = String::new(alloc);
    for verdict in verdicts.iter() {
        text.push_str(verdict_line(alloc, verdict)?.as_str())?;
    }
    Ok(text)
}

/// Makes the call of this word, if it is one about locks.
pub(crate) fn call<S: Store>(
    given: &Given<'_>,
    store: &mut S,
    name: &str,
    words: &[&str],
) -> Result<Option<String>, Fault> {
    let alloc = given.alloc;
    Ok(Some(match name {
        "lock" => create(alloc, given.now, store, words)?,
        "unlock" => remove(alloc, store, words)?,
        "lock-at" => at(alloc, store, words)?,
        "lock-with" => with(alloc, store, words)?,
        "locks" => all(alloc, store, words)?,
        "locks-from" => from(alloc, store, words)?,
        "locks-made" => number(alloc, store, words)?,
        "push" => push(given, store, words)?,
        _ => return Ok(None),
    }))
}
