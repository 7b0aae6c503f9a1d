//! The texts and words that a policy file may contain.

ghost use Rattle.std.specs.Prelude.{◌≡◌, option_map};
ghost use Rattle.std.specs.List.{list_all};
ghost use Rattle.names.specs.Texts.{is_user, is_repo, is_ref, is_lock_path};
ghost use Rattle.model.specs.Policy.{is_any};
ghost use Rattle.policy.specs.Ranges.{is_base_byte, ends_in_slash, goes_on, is_base, before_slash, is_front, is_user_entry, is_repo_entry, is_ref_entry, is_path_entry};
ghost use Rattle.policy.specs.Language.{effect_named, right_named, kind_of, test_of};

use crate::keys::Key;
use model::{Effect, Right};
use names::{LockPath, RefName, RepoName, UserName};

fn is_base_byte(byte: u8) -> bool
    ensures { result ≡ is_base_byte byte }
{
    byte.is_ascii_alphanumeric() || matches!(byte, b'.' | b':' | b'_' | b'/' | b'-')
}

fn has_base_bytes(text: &str) -> bool
    ensures { result ≡ list_all is_base_byte text.now }
{
    text.bytes().all(is_base_byte)
}

fn ends_in_slash(text: &str) -> bool
    ensures { result ≡ ends_in_slash text.now }
{
    text.as_bytes().ends_with(b"/")
}

fn goes_on(text: &str, front: &str) -> bool
    ensures { result ≡ goes_on front.now text.now }
{
    text.as_bytes().starts_with(front.as_bytes()) && front.len() < text.len()
}

/// Whether the text is a valid server address: 8 to 200 bytes of `A-Z a-z 0-9 . : _ / -` that begin
/// with `http://` or `https://`, continue after it, and do not end in `/`.
fn is_base(text: &str) -> bool
    ensures { result ≡ is_base text.now }
{
    text.len() >= 8
        && text.len() <= 200
        && has_base_bytes(text)
        && (goes_on(text, "http://") || goes_on(text, "https://"))
        && !ends_in_slash(text)
}

fn is_any(text: &str) -> bool
    ensures { result ≡ is_any text.now }
{
    text == "*"
}

fn is_user(text: &str) -> bool
    ensures { result ≡ is_user text.now }
{
    UserName::accepts(text)
}

/// Whether the text is a repository: `owner/name`.
fn is_repo(text: &str) -> bool
    ensures { result ≡ is_repo text.now }
{
    RepoName::accepts(text)
}

/// Whether the text is a ref.
fn is_ref(text: &str) -> bool
    ensures { result ≡ is_ref text.now }
{
    RefName::accepts(text)
}

fn is_lock_path(text: &str) -> bool
    ensures { result ≡ is_lock_path text.now }
{
    LockPath::accepts(text)
}

/// The text before the slash at its end; `None` if it does not end in one.
fn before_slash(text: &str) -> Option<&str>
    ensures { option_map (λ front. front.now) result ≡ before_slash text.entry.now }
{
    text.strip_suffix('/')
}

fn is_owner_front(text: &str) -> bool
    ensures { result ≡ is_front is_user text.now }
{
    before_slash(text).is_some_and(|owner| is_user(owner))
}

fn is_ref_front(text: &str) -> bool
    ensures { result ≡ is_front is_ref text.now }
{
    before_slash(text).is_some_and(|front| is_ref(front))
}

fn is_path_front(text: &str) -> bool
    ensures { result ≡ is_front is_lock_path text.now }
{
    before_slash(text).is_some_and(|front| is_lock_path(front))
}

/// Whether the text is a valid user entry of a row: `*`, or a user.
fn is_user_entry(text: &str) -> bool
    ensures { result ≡ is_user_entry text.now }
{
    is_any(text) || is_user(text)
}

/// Whether the text is a valid repository entry of a row: `*`, an owner and `/`, or a repository.
fn is_repo_entry(text: &str) -> bool
    ensures { result ≡ is_repo_entry text.now }
{
    is_any(text) || is_owner_front(text) || is_repo(text)
}

/// Whether the text is a valid ref entry of a row: `*`, `refs/`, a ref and `/`, or a ref.
fn is_ref_entry(text: &str) -> bool
    ensures { result ≡ is_ref_entry text.now }
{
    is_any(text) || text == "refs/" || is_ref_front(text) || is_ref(text)
}

/// Whether the text is a valid path entry of a row: `*`, a path and `/`, or a path.
fn is_path_entry(text: &str) -> bool
    ensures { result ≡ is_path_entry text.now }
{
    is_any(text) || is_path_front(text) || is_lock_path(text)
}

/// The effect with that name: `allow` or `deny`.
pub fn effect_named(name: &str) -> Option<Effect>
    ensures { result ≡ effect_named name.now }
{
    match name {
        "allow" => Some(Effect::Allow),
        "deny" => Some(Effect::Deny),
        _ => None,
    }
}

/// The right with that name: `pull`, `push`, `list`, `lock` or `force`; `None` for any other text.
pub fn right_named(name: &str) -> Option<Right>
    ensures { result ≡ right_named name.now }
{
    match name {
        "pull" => Some(Right::Pull),
        "push" => Some(Right::Push),
        "list" => Some(Right::List),
        "lock" => Some(Right::Lock),
        "force" => Some(Right::Force),
        _ => None,
    }
}

/// Whether the text is valid at the key, or among its texts; false for a key that takes no text.
pub fn is_text_for(key: Key, text: &str) -> bool
    ensures { result ≡ test_of (kind_of key) text.now }
{
    match key {
        Key::Base => is_base(text),
        Key::Name => is_repo(text),
        Key::DefaultRef => is_ref(text),
        Key::Effect => effect_named(text).is_some(),
        Key::Users => is_user_entry(text),
        Key::Repos => is_repo_entry(text),
        Key::Refs => is_ref_entry(text),
        Key::Paths => is_path_entry(text),
        Key::Rights => right_named(text).is_some(),
        Key::TokenSeconds | Key::Repo | Key::Row | Key::Quota => false,
    }
}
