//! Moments as text.

ghost use Rattle.std.specs.Prelude.{◌≡◌, ◌/◌, ◌<◌, ◌≤◌, ◌≤ℤ◌, ◌++◌, ◌∷◌, [], pos, string_bytes, OnOk, IfOk};
ghost use Rattle.jiff.specs.Words.{epoch_day};
ghost use Rattle.jiff_core.specs.Calendar.{IsCivilDate, days_from_civil};
ghost use Rattle.names.specs.Moments.{two_digits, four_digits, date_text, time_text, civil_text, IsMomentText};
ghost use Rattle.names.specs.Texts.{last_moment};

use crate::Moment;
use jiff::ToSpan;
use jiff::civil::{Date, date};
use std::alloc::{AllocError, Global};

/// The seconds of a day.
const DAY: u64 = 86_400;

/// A calendar day.
#[derive(Clone, Copy)]
struct Day {
    year: u32,
    month: u32,
    day: u32,
}

fn push_mark(text: &mut String, mark: u8) -> Result<(), AllocError>
    requires { mark < 128 }
    ensures { OnOk result (string_bytes text.new ≡ string_bytes text.old ++ mark ∷ []) }
{
    Ok(text.push(mark as char)?)
}

fn push_two_digits(text: &mut String, number: u32) -> Result<(), AllocError>
    requires { number < 100 }
    ensures { OnOk result (string_bytes text.new ≡ string_bytes text.old ++ two_digits number) }
{
    text.push((48 + number / 10) as u8 as char)?;
    text.push((48 + number % 10) as u8 as char)?;
    Ok(())
}

fn push_four_digits(text: &mut String, number: u32) -> Result<(), AllocError>
    requires { number < 10000 }
    ensures { OnOk result (string_bytes text.new ≡ string_bytes text.old ++ four_digits number) }
{
    push_two_digits(text, number / 100)?;
    push_two_digits(text, number % 100)
}

fn push_date(text: &mut String, date: Day) -> Result<(), AllocError>
    requires year { date.year < 10000 }
    requires month { date.month < 100 }
    requires day { date.day < 100 }
    ensures { OnOk result (string_bytes text.new
        ≡ string_bytes text.old ++ date_text date.year date.month date.day) }
{
    push_four_digits(text, date.year)?;
    push_mark(text, b'-')?;
    push_two_digits(text, date.month)?;
    push_mark(text, b'-')?;
    push_two_digits(text, date.day)
}

fn push_time(text: &mut String, second: u32) -> Result<(), AllocError>
    requires { second < DAY }
    ensures { OnOk result (string_bytes text.new ≡ string_bytes text.old ++ time_text second) }
{
    push_two_digits(text, second / 3600)?;
    push_mark(text, b':')?;
    push_two_digits(text, second / 60 % 60)?;
    push_mark(text, b':')?;
    push_two_digits(text, second % 60)
}

fn push_civil(text: &mut String, date: Day, second: u32) -> Result<(), AllocError>
    requires year { date.year < 10000 }
    requires month { date.month < 100 }
    requires day { date.day < 100 }
    requires second { second < DAY }
    ensures { OnOk result (string_bytes text.new
        ≡ string_bytes text.old ++ civil_text date.year date.month date.day second) }
{
    push_date(text, date)?;
    push_mark(text, b'T')?;
    push_time(text, second)?;
    push_mark(text, b'Z')?;
    Ok(())
}

/// The date of a moment: its whole days after 1970-01-01. It is not made from an instant of `jiff`,
/// since the last moments lie past those.
fn date_of(second: u64) -> Date
    requires { second ≤ last_moment }
    ensures day { epoch_day result ≡ pos (second / 86400) }
    ensures year { pos 0 ≤ℤ result.year }
{
    date(1970, 1, 1) + ((second / DAY) as i64).days()
}

fn day_of(second: u64) -> Day
    requires { second ≤ last_moment }
    ensures date { IsCivilDate (pos result.year) result.month result.day }
    ensures days { days_from_civil (pos result.year) result.month result.day
        ≡ pos (second / 86400) }
{
    let date = date_of(second);
    Day {
        year: date.year() as u32,
        month: date.month() as u32,
        day: date.day() as u32,
    }
}

/// Formats the moment as its civil date and time in UTC, like `1970-01-01T00:00:00Z` (RFC 3339, Internet
/// Date/Time Format).
///
/// # Errors
///
/// An [`AllocError`] if memory for the text runs out.
pub fn moment_text(alloc: Global, moment: Moment) -> Result<String, AllocError>
    ensures { IfOk result (λ text. IsMomentText moment (string_bytes text)) }
{
    let second = moment.get();
    let mut text = String::new(alloc);
    push_civil(&mut text, day_of(second), (second % DAY) as u32)?;
    Ok(text)
}
