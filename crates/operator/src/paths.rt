//! Reads the paths of a push from lines of text.

ghost use Rattle.std.specs.Prelude.{◌≡◌, map, IfOk, IfSome};
ghost use Rattle.names.specs.Names.{path_text};
ghost use Rattle.operator.specs.Listed.{AreLinesOf};

use names::LockPath;
use std::alloc::{AllocError, Global};
use thiserror::Error;

/// The most paths of a push check.
const MOST_PATHS: usize = 10_000;

/// The number of bytes after which a text has a line too many, or one that is longer than a path: a path has at most
/// 1,024 bytes, and a line end.
pub const LONGEST_PATHS: u64 = 10_250_001;

/// Why lines are not the paths of a push.
#[derive(Clone, Copy, Debug, PartialEq, Eq, Error)]
pub enum PathsFault {
    /// The line with this number, counted from 1, is not a path.
    #[error("bad path in line {0}")]
    BadPath(usize),
    /// There are more lines than a push check takes.
    #[error("too many paths")]
    TooMany,
    /// Memory ran out.
    #[error("no memory")]
    Memory,
}

impl From<AllocError> for PathsFault {
    ghost use Rattle.operator.specs.declared.paths.PathsFault.TheVariants.{Memory};

    ghost from_gives = { λ _ gives. gives ≡ Memory };

    fn from(_refused: AllocError) -> PathsFault {
        PathsFault::Memory
    }
}

/// The path in a line; `None` if it has none.
fn path_in(alloc: Global, line: &[u8]) -> Result<Option<LockPath>, AllocError>
    ensures { IfOk result (λ found. IfSome found (λ path. path_text path ≡ line.now)) }
{
    match str::from_utf8(line) {
        Ok(text) if LockPath::accepts(text) => Ok(LockPath::read(text.to_owned(alloc)?)),
        _ => Ok(None),
    }
}

/// The paths in lines, each of which LF ends; the last may lack it.
///
/// # Errors
///
/// `BadPath` for the first line that is not a path, if it is among the first 10,000; `TooMany` if there is none and there
/// are more lines; and `Memory`.
pub fn paths_in(alloc: Global, bytes: &[u8]) -> Result<Vec<LockPath>, PathsFault>
    ensures lines { IfOk result (λ paths. AreLinesOf bytes.now (map path_text paths.items)) }
{
    let mut paths = Vec::new(alloc);
    if bytes.is_empty() {
        return Ok(paths);
    }
    let lines = bytes.strip_suffix(b"\n").unwrap_or(bytes);
    for line in lines.split(|byte| *byte == b'\n') {
        if paths.len() >= MOST_PATHS {
            return Err(PathsFault::TooMany);
        }
        let Some(path) = path_in(alloc, line)? else {
            return Err(PathsFault::BadPath(paths.len() + 1));
        };
        paths.push(path).map_err(AllocError::from)?;
    }
    Ok(paths)
}
