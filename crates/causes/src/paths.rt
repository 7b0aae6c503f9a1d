//! The parts of a path.

use std::path::Path;

/// The folder of a path, which is `.` for a path of one part, and `/` for the top of the file system.
pub(crate) fn folder_of(path: &str) -> &str {
    match Path::new(path).parent() {
        None => "/",
        Some(folder) if folder.as_str().is_empty() => ".",
        Some(folder) => folder.as_str(),
    }
}

/// Whether the text is the name of a file for a database: it is not empty, and neither `:memory:` nor a URI.
pub(crate) fn is_file_name(path: &str) -> bool {
    !path.is_empty() && path != ":memory:" && !path.starts_with("file:")
}
