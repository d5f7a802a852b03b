ghost use Rattle.std.specs.Prelude.{◌≡◌, pos, IfOk, string_bytes};
ghost use Rattle.cs_types.specs.Civil.{IsDay};
ghost use Rattle.cs_types.specs.Moment.{day_number};
ghost use Rattle.cs_types.specs.Stamp.{stamp_text};

use crate::civil::write_date;
use crate::clock::put_clock;
use crate::{Memory, Stamp, Text};
use std::alloc::Global;
use std::marker::Model;

const DAY: u64 = 86_400_000_000;

/// The longest text of a stamp, with six digits of a fraction.
const MOST_BYTES: usize = 27;

/// A day, in days since 1970-01-01, and the text of its date, for the texts of stamps of which most
/// are of the day of the one before. Contracts see the day.
#[derive(Debug, Drop)]
pub struct DateText {
    day: i32,
    text: Text,
}

impl Model for DateText {
    ghost use Rattle.std.specs.Prelude.{ℤ, ◌≡◌};
    ghost use Rattle.cs_types.specs.Civil.{date_text};

    ghost Value = { ℤ };

    ghost view = { λ t. t.day };

    ghost invariant = { λ t. t.text ≡ date_text t.day };
}

impl DateText {
    /// That of a stamp's day. Where the last is of that day, it is handed on, and takes no memory.
    pub fn next(alloc: Global, last: Option<DateText>, stamp: Stamp) -> Result<DateText, Memory>
        ensures { IfOk result (λ t. t ≡ day_number (pos stamp)) }
    {
        let day = day_of(stamp);
        let Some(last) = last else {
            return DateText::of(alloc, day);
        };
        if last.day != day {
            return DateText::of(alloc, day);
        }
        Ok(last)
    }

    /// The text of a stamp of that day.
    pub fn with_clock(&self, alloc: Global, stamp: Stamp) -> Result<String, Memory>
        requires { self.now ≡ day_number (pos stamp) }
        ensures { IfOk result (λ s. string_bytes s ≡ stamp_text stamp) }
    {
        let mut text = String::with_capacity(alloc, MOST_BYTES)?;
        text.push_str(self.text.as_str())?;
        put_clock(&mut text, stamp.us() % DAY)?;
        Ok(text)
    }

    fn of(alloc: Global, day: i32) -> Result<DateText, Memory>
        requires { IsDay day }
        ensures { IfOk result (λ t. t ≡ day) }
    {
        let text = write_date(alloc, day)?;
        Ok(DateText { day, text })
    }
}

fn day_of(stamp: Stamp) -> i32
    ensures value { result ≡ day_number (pos stamp) }
    ensures range { IsDay result }
{
    (stamp.us() / DAY) as i32
}
