// The text of a date (ISO 8601).
ghost use Rattle.std.specs.Prelude.{◌≡◌, ◌/◌, ◌%◌, ◌<◌, IfOk};
ghost use Rattle.std.specs.String.{string_bytes};
ghost use Rattle.jiff_core.specs.Date.{epoch_day};
ghost use Rattle.bl_value.specs.Dates.{IsDayNumber, date_text};
ghost use Rattle.bl_value.specs.Valid.{IsDate};

use bl_outside::NoMemory;
use jiff::civil::DateTime;
use jiff_core::civil;
use std::alloc::Global;

/// The text `yyyy-MM-ddTHH:mm:ssZ` of seconds from 1970 UTC.
pub fn date_text(alloc: Global, seconds: i64) -> Result<String, NoMemory>
    requires { IsDate seconds }
    ensures { IfOk result (λ text. string_bytes text ≡ date_text seconds) }
{
    let date = date_of(seconds.div_euclid(86_400));
    let time = time_of(seconds.rem_euclid(86_400) as u32);
    let moment = DateTime::from_plain(civil::DateTime { date, time });
    Ok(format!(in alloc; "{moment}Z")?)
}

// The date of a day number.
fn date_of(day: i64) -> civil::Date
    requires { IsDayNumber day }
    ensures { epoch_day result ≡ day }
{
    let Ok(date) = civil::Date::from_unix_epoch_day(day) else {
        unreachable!();
    };
    date
}

// The time of a second of a day.
fn time_of(second: u32) -> civil::Time
    requires { second < 86400 }
    ensures hour { result.hour ≡ second / 3600 }
    ensures minute { result.minute ≡ second / 60 % 60 }
    ensures second { result.second ≡ second % 60 }
    ensures whole { result.subsec_nanosecond ≡ 0 }
{
    civil::Time {
        hour: (second / 3600) as u8,
        minute: (second / 60 % 60) as u8,
        second: (second % 60) as u8,
        subsec_nanosecond: 0,
    }
}
