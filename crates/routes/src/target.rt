//! The parts of a target (RFC 9112, Request Target).

ghost use Rattle.std.specs.Prelude.{◌≡◌, ◌-◌, ◌==◌, option_map, MatchOption, codes, take, length, true, false};
ghost use Rattle.std.specs.List.{ends_with, slice_get};
ghost use Rattle.names.specs.Texts.{parts};
ghost use Rattle.model.specs.Heads.{path_of, query_of};

/// Returns the path of a target: the part before its first question mark.
pub fn path_of(target: &str) -> &str
    ensures { result.now ≡ path_of target.now }
{
    match target.split_once('?') {
        None => target,
        Some((path, _)) => path,
    }
}

/// Returns the query of a target: the part after its first question mark; empty if there is none.
pub fn query_of(target: &str) -> &str
    ensures { result.now ≡ query_of target.now }
{
    match target.split_once('?') {
        None => "",
        Some((_, query)) => query,
    }
}

/// The part of a path between slashes at this place, counted from 0.
pub(crate) fn part_at(path: &str, place: usize) -> Option<&str>
    ensures { option_map (λ part. part.now) result ≡ slice_get (parts path.now) place }
{
    match path.split_once('/') {
        None => { if place == 0 { Some(path) } else { None } }
        Some((part, rest)) => {
            if place == 0 {
                Some(part)
            } else {
                part_at(rest, place - 1)
            }
        }
    }
}

/// The part without the `.git` at its end; `None` if it does not end in `.git`.
pub(crate) fn without_git(part: &str) -> Option<&str>
    ensures { MatchOption result (ends_with (λ a b. a == b) part.now (codes ".git") ≡ false)
        (λ name. (ends_with (λ a b. a == b) part.now (codes ".git") ≡ true)
        × (name.now ≡ take (length part.now - 4) part.now)) }
{
    if part.as_bytes().ends_with(b".git") {
        Some(&part[..part.len() - 4])
    } else {
        None
    }
}
