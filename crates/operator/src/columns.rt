//! Tables with aligned columns.

ghost use Rattle.std.specs.Prelude.{◌≡◌, ◌++◌, map, replicate, string_bytes, IfOk, OnOk};
ghost use Rattle.operator.specs.Columns.{aligned, at_right, table_lines, widened, widths_of};
ghost use Rattle.operator.specs.Texts.{text_of};

use crate::output::Lines;
use std::alloc::{AllocError, Global};

/// The number of columns.
pub(crate) const COLUMNS: usize = 8;

/// The texts of a line, one for each column.
pub(crate) type Cells = [String; COLUMNS];

/// Makes each column as wide as its text.
fn widen(widths: &mut [usize; COLUMNS], row: &Cells)
    ensures { widths.new ≡ widened widths.old (map string_bytes row.now) }
{
    for column in 0..COLUMNS {
        widths[column] = widths[column].max(row[column].len());
    }
}

/// The widths of the columns: of each the length of its longest text.
fn widths_of(rows: &[Cells]) -> [usize; COLUMNS]
    ensures { result ≡ widths_of (map (map string_bytes) rows.now) }
{
    let mut widths = [0; COLUMNS];
    for row in rows {
        widen(&mut widths, row);
    }
    widths
}

/// Adds spaces.
fn push_spaces(line: &mut String, count: usize) -> Result<(), AllocError>
    ensures { OnOk result (string_bytes line.new ≡ string_bytes line.old ++ replicate count 32) }
{
    let mut left = count;
    'spaces: while left > 0 {
        line.push(' ')?;
        left -= 1;
    }
    Ok(())
}

/// Adds a text at the right of its column.
fn push_right(line: &mut String, width: usize, text: &str) -> Result<(), AllocError>
    ensures { OnOk result (string_bytes line.new
        ≡ string_bytes line.old ++ at_right width text.now) }
{
    line.push_str("  ")?;
    push_spaces(line, width.saturating_sub(text.len()))?;
    line.push_str(text)
}

/// The line of a row: the first text is at the left of its column, the others at the right of theirs, and there are two
/// spaces between two columns.
fn aligned(alloc: Global, widths: &[usize; COLUMNS], row: &Cells) -> Result<String, AllocError>
    ensures { IfOk result (λ line. string_bytes line
        ≡ aligned widths.now (map string_bytes row.now)) }
{
    let first = row[0].as_str();
    let mut line = first.to_owned(alloc)?;
    push_spaces(&mut line, widths[0].saturating_sub(first.len()))?;
    for column in 1..COLUMNS {
        push_right(&mut line, widths[column], row[column].as_str())?;
    }
    Ok(line)
}

/// A line of headings and a line for each row, with aligned columns.
pub(crate) fn lines_of(alloc: Global, headings: &Cells, rows: &[Cells]) -> Result<Lines, AllocError>
    ensures { IfOk result (λ lines. text_of lines
        ≡ table_lines (map string_bytes headings.now) (map (map string_bytes) rows.now)) }
{
    let mut widths = widths_of(rows);
    widen(&mut widths, headings);
    let mut lines = Lines::new(alloc);
    lines.push(aligned(alloc, &widths, headings)?.as_bytes())?;
    for row in rows {
        lines.push(aligned(alloc, &widths, row)?.as_bytes())?;
    }
    Ok(lines)
}
