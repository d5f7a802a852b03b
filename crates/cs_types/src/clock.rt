ghost use Rattle.std.specs.Prelude.{◌≡◌, ◌++◌, ◌<◌, OnOk, string_bytes};
ghost use Rattle.cs_types.specs.Moment.{clock_text, fraction_text};
ghost use Rattle.cs_types.specs.Shape.{two_digits};

use crate::Memory;

/// Adds the time of day, from the microseconds since midnight.
pub(crate) fn put_clock(text: &mut String, us: u64) -> Result<(), Memory>
    requires { us < 86400000000 }
    ensures { OnOk result (string_bytes text.new ≡ string_bytes text.old ++ clock_text us) }
{
    let second = us / 1_000_000;
    text.push_str("T")?;
    put_two(text, second / 60 / 60)?;
    text.push_str(":")?;
    put_two(text, second / 60 % 60)?;
    text.push_str(":")?;
    put_two(text, second % 60)?;
    put_fraction(text, us % 1_000_000)?;
    text.push_str("Z")?;
    Ok(())
}

/// Adds nothing for zero, else a point and six digits.
fn put_fraction(text: &mut String, us: u64) -> Result<(), Memory>
    requires { us < 1000000 }
    ensures { OnOk result (string_bytes text.new ≡ string_bytes text.old ++ fraction_text us) }
{
    if us == 0 {
        return Ok(());
    }
    text.push_str(".")?;
    put_two(text, us / 10_000)?;
    put_two(text, us / 100 % 100)?;
    put_two(text, us % 100)?;
    Ok(())
}

/// Adds a number below 100 in two digits.
fn put_two(text: &mut String, n: u64) -> Result<(), Memory>
    requires { n < 100 }
    ensures { OnOk result (string_bytes text.new ≡ string_bytes text.old ++ two_digits n) }
{
    text.push(char::from(b'0' + (n / 10) as u8))?;
    text.push(char::from(b'0' + (n % 10) as u8))?;
    Ok(())
}
