// Dates of a cell: `yyyy-MM-dd`, with a clock or without.
ghost use Rattle.std.specs.Prelude.{◌≡◌, ◌+◌, ◌*◌, ◌≤◌, ◌<ℤ◌, drop, pos, is_some, IfSome, IfOk};
ghost use Rattle.jiff_core.specs.Calendar.{days_from_civil};
ghost use Rattle.bl_value.specs.Cells.{
  date,
  has_date_form,
  has_form,
  is_day,
  is_like,
  is_time,
  two_digits,
  year_of,
};
ghost use Rattle.bl_value.specs.Dates.{IsDayNumber};
ghost use Rattle.bl_value.specs.Valid.{IsValue};

use crate::{CellRefusal, Value};
use jiff_core::civil::Date;

pub fn read_date(text: &[u8]) -> Result<Value, CellRefusal>
    ensures value { result ≡ date text.now }
    ensures valid { IfOk result IsValue }
{
    if !has_date_form(text) {
        return Err(CellRefusal::NotOfType);
    }
    let month = two_digits(behind(text, 5));
    let Some(day) = day_number(year_of(text), month, two_digits(behind(text, 8))) else {
        return Err(CellRefusal::NotOfType);
    };
    let hour = two_digits(behind(text, 11));
    let minute = two_digits(behind(text, 14));
    let Some(second) = second_of_day(hour, minute, two_digits(behind(text, 17))) else {
        return Err(CellRefusal::NotOfType);
    };
    Ok(Value::Date(86_400 * day + second))
}

fn has_date_form(text: &[u8]) -> bool
    ensures { result ≡ has_date_form text.now }
{
    has_form(b"0000-00-00", text)
        || has_form(b"0000-00-00T00:00", text)
        || has_form(b"0000-00-00T00:00:00", text)
        || has_form(b"0000-00-00T00:00:00Z", text)
}

// A text has a form: digits where the form has the digit 0, and elsewhere the form's bytes.
fn has_form(form: &[u8], text: &[u8]) -> bool
    ensures { result ≡ has_form form.now text.now }
{
    let mut rest = text;
    for mark in form {
        let [byte, tail @ ..] = rest else {
            return false;
        };
        if !is_like(*mark, *byte) {
            return false;
        }
        rest = tail;
    }
    rest.is_empty()
}

fn is_like(mark: u8, byte: u8) -> bool
    ensures { result ≡ is_like mark byte }
{
    if mark == b'0' {
        byte.is_ascii_digit()
    } else {
        byte == mark
    }
}

fn year_of(text: &[u8]) -> u16
    ensures value { result ≡ year_of text.now }
    ensures bound { result ≤ 9999 }
{
    two_digits(text) as u16 * 100 + two_digits(behind(text, 2)) as u16
}

// The number that two digits in front write, and 0 where none stand there.
fn two_digits(text: &[u8]) -> u8
    ensures value { result ≡ two_digits text.now }
    ensures bound { result ≤ 99 }
{
    match text {
        [tens, ones, ..] if tens.is_ascii_digit() && ones.is_ascii_digit() => {
            (*tens - b'0') * 10 + (*ones - b'0')
        }
        _ => 0,
    }
}

// What stands behind that many bytes.
fn behind(text: &[u8], count: usize) -> &[u8]
    ensures { result.now ≡ drop count text.now }
{
    if count <= text.len() {
        &text[count..]
    } else {
        &[]
    }
}

// The number of a day, where the calendar has it.
fn day_number(year: u16, month: u8, day: u8) -> Option<i64>
    requires year { year ≤ 9999 }
    requires month { month ≤ 99 }
    requires day { day ≤ 99 }
    ensures day { is_some result ≡ is_day year month day }
    ensures number { IfSome result (λ number. number ≡ days_from_civil (pos year) month day) }
    ensures bound { IfSome result IsDayNumber }
{
    match Date::new(year as i16, month as i8, day as i8) {
        Ok(date) => Some(date.to_unix_epoch_day() as i64),
        Err(_) => None,
    }
}

// The number of a second of a day, where a clock shows it.
fn second_of_day(hour: u8, minute: u8, second: u8) -> Option<i64>
    ensures time { is_some result ≡ is_time hour minute second }
    ensures number { IfSome result
        (λ number. number ≡ pos (hour * 3600 + minute * 60 + second)) }
    ensures bound { IfSome result (λ number. number <ℤ pos 86400) }
{
    if hour < 24 && minute < 60 && second < 60 {
        Some(hour as i64 * 3600 + minute as i64 * 60 + second as i64)
    } else {
        None
    }
}
