//! What to do about a file of contents.

use faults::ContentsCause;

/// What is wrong with a file of contents, and what to do, after its path and a colon.
pub(crate) fn contents_text(cause: ContentsCause) -> &'static str {
    match cause {
        ContentsCause::Missing => {
            "the contents of objects are in this file, and it does not exist: put it beside the database again"
        }
        ContentsCause::NotEmpty => {
            "this file has bytes, and the database is new: move it away, or put its database beside it"
        }
        ContentsCause::InUse => "another program has it open: end that program",
        ContentsCause::Linked => "it has a second name, a hard link: remove one of the two",
        ContentsCause::Short => {
            "it is shorter than the database says: use copies of both files of one moment"
        }
        ContentsCause::Overlapping => {
            "the database says of two contents that they share bytes of it: use copies of both files of one moment"
        }
        ContentsCause::NoPlace => {
            "a row of the database says where no content can be: another program changed it, so use a copy"
        }
        ContentsCause::Failed => "it cannot be opened, read or synced: see dmesg for the cause",
        ContentsCause::Damaged => {
            "an object has fewer or more bytes than its size says: custody repair removes it"
        }
    }
}
