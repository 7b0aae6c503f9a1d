//! The locks of one user, and the others.

ghost use Rattle.std.specs.Prelude.{◌≡◌, ◌++◌, filter, length};
ghost use Rattle.names.specs.Names.{user_text};
ghost use Rattle.cursor.specs.Owners.{is_owned, is_other};

use crate::pages::Page;
use locks::Lock;
use names::UserName;

fn is_owned(row: &Lock, user: &UserName) -> bool
    ensures { result ≡ is_owned (user_text user.now) row.now }
{
    row.owner.as_str() == user.as_str()
}

/// Moves the user's locks to the front, and returns how many there are. They stay in their order, and
/// so do the others.
fn part(rows: &mut [Lock], user: &UserName) -> usize
    ensures parted { rows.new
        ≡ filter (is_owned (user_text user.now)) rows.old
        ++ filter (is_other (user_text user.now)) rows.old }
    ensures count { result ≡ length (filter (is_owned (user_text user.now)) rows.old) }
{
    let mut owned = 0;
    for i in 0..rows.len() {
        if is_owned(&rows[i], user) {
            rows[owned..i + 1].rotate_right(1);
            owned += 1;
        }
    }
    owned
}

/// Returns the locks of the page that are the user's, and the others, each in the order of the page
/// (Git LFS API, File Locking, "List Locks for Verification"). They are moved within the page, and
/// no memory is taken.
pub fn split<'a>(page: &'a mut Page, user: &UserName) -> (&'a [Lock], &'a [Lock])
    ensures ours { result.0.now
        ≡ filter (is_owned (user_text user.now)) page.old.locks.items }
    ensures theirs { result.1.now
        ≡ filter (is_other (user_text user.now)) page.old.locks.items }
{
    let owned = part(page.locks.as_mut_slice(), user);
    page.locks.as_slice().split_at(owned)
}
