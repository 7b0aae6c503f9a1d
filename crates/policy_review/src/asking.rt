//! Which requests ask a right.

ghost use Rattle.std.specs.Prelude.{◌≡◌};
ghost use Rattle.policy_review.specs.Asking.{requests_of};

use model::Right;

/// The requests that ask the right, in one line.
pub fn asked_by(right: Right) -> &'static str
    ensures { result.now ≡ requests_of right }
{
    match right {
        Right::Pull => {
            "a download (batch, GET of an object), as in a fetch or a clone; a list of locks"
        }
        Right::Push => {
            "an upload (batch, PUT of an object, verification of an object); the check of the locks of a ref before a push; pushcheck, for each path"
        }
        Right::List => "a list of locks, for each lock in it",
        Right::Lock => "the creation of a lock; the release of a lock of one's own",
        Right::Force => "the release of another user's lock, by force",
    }
}
