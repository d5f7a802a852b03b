// The last lines of statuses that no run over a script answers.

use cs_link::Breach;
use cs_records::{LineFault, RecordFault};
use cs_tool::Status;
use cs_types::{Memory, Stamp, Text, Token};
use std::alloc::Global;
use std::test::Fail;

/// The moment so many seconds after 2024-05-01T00:00:00Z.
fn second(seconds: u32) -> Result<Stamp, Memory> {
    Stamp::of(1_714_521_600_000_000 + 1_000_000 * u64::from(seconds)).ok_or(Memory)
}

fn token(alloc: Global, text: &str) -> Result<Token, Memory> {
    Token::of(alloc, text.as_bytes())?.ok_or(Memory)
}

/// The line of a breach.
fn tell(alloc: Global, told: &mut String, breach: Breach) -> Result<(), Memory> {
    let line = Status::Breach(breach).line(alloc)?;
    told.push_str(line.as_str())?;
    Ok(())
}

/// Those that keep stamps.
fn of_stamps(alloc: Global) -> Result<String, Memory> {
    let mut told = String::new(alloc);
    let (two, three) = (second(2)?, second(3)?);
    tell(alloc, &mut told, Breach::StampFell(three, two))?;
    tell(alloc, &mut told, Breach::OutOfWindow(three, two))?;
    tell(alloc, &mut told, Breach::HeartbeatWrong(three, two))?;
    tell(alloc, &mut told, Breach::BelowHeartbeat(two, three))?;
    tell(alloc, &mut told, Breach::AfterChildren(three, two))?;
    tell(alloc, &mut told, Breach::ChildStart(two, three))?;
    Ok(told)
}

const OF_STAMPS: &str =
    "31 Breach StampFell 2024-05-01T00:00:03Z 2024-05-01T00:00:02Z\n31 Breach OutOfWindow 2024-05-01T00:00:03Z 2024-05-01T00:00:02Z\n31 Breach HeartbeatWrong 2024-05-01T00:00:03Z 2024-05-01T00:00:02Z\n31 Breach BelowHeartbeat 2024-05-01T00:00:02Z 2024-05-01T00:00:03Z\n31 Breach AfterChildren 2024-05-01T00:00:03Z 2024-05-01T00:00:02Z\n31 Breach ChildStart 2024-05-01T00:00:02Z 2024-05-01T00:00:03Z\n";

#[test]
fn a_breach_of_stamps_has_both(rt: HostRuntime) -> Result<(), Fail> {
    assert_eq!(rt; of_stamps(rt.alloc())?.as_str(), OF_STAMPS);
    Ok(())
}

/// Those that keep tokens.
fn of_tokens(alloc: Global) -> Result<String, Memory> {
    let mut told = String::new(alloc);
    let (a, b) = (token(alloc, "S-00001")?, token(alloc, "S-00001")?);
    tell(alloc, &mut told, Breach::ChildDiffers(a, b))?;
    let (a, b) = (token(alloc, "S-00003")?, token(alloc, "S-00001")?);
    tell(alloc, &mut told, Breach::ParentMissing(a, b))?;
    let (a, b) = (token(alloc, "S-00003")?, token(alloc, "S-00002")?);
    tell(alloc, &mut told, Breach::Orphan(a, b))?;
    Ok(told)
}

const OF_TOKENS: &str =
    "31 Breach ChildDiffers S-00001 S-00001\n31 Breach ParentMissing S-00003 S-00001\n31 Breach Orphan S-00003 S-00002\n";

#[test]
fn a_breach_of_tokens_has_both(rt: HostRuntime) -> Result<(), Fail> {
    assert_eq!(rt; of_tokens(rt.alloc())?.as_str(), OF_TOKENS);
    Ok(())
}

/// Those that keep numbers.
fn of_numbers(alloc: Global) -> Result<String, Memory> {
    let mut told = String::new(alloc);
    tell(alloc, &mut told, Breach::InitialWrong(0, 0))?;
    tell(alloc, &mut told, Breach::CutEarly(1, 8192))?;
    tell(alloc, &mut told, Breach::TooManyAtStamp(second(3)?, 1024))?;
    tell(alloc, &mut told, Breach::TooManyRows(65_537, 65_536))?;
    tell(alloc, &mut told, Breach::TooManyChildren(66_560, 65_536))?;
    Ok(told)
}

const OF_NUMBERS: &str =
    "31 Breach InitialWrong 0 0\n31 Breach CutEarly 1 8192\n31 Breach TooManyAtStamp 2024-05-01T00:00:03Z 1024\n31 Breach TooManyRows 65537 65536\n31 Breach TooManyChildren 66560 65536\n";

#[test]
fn a_breach_of_numbers_has_both(rt: HostRuntime) -> Result<(), Fail> {
    assert_eq!(rt; of_numbers(rt.alloc())?.as_str(), OF_NUMBERS);
    Ok(())
}

/// Those that keep a fault, which has its name alone.
fn of_faults(alloc: Global) -> Result<String, Memory> {
    let mut told = String::new(alloc);
    tell(alloc, &mut told, Breach::BadLine(3, LineFault::NotJson))?;
    let member = LineFault::Member(Text::of(alloc, "timestamp")?);
    tell(alloc, &mut told, Breach::BadLine(4, member))?;
    let missing = RecordFault::KeyMissing(Text::of(alloc, "K")?);
    tell(alloc, &mut told, Breach::BadRecord(1, missing))?;
    Ok(told)
}

#[test]
fn a_breach_of_a_fault_has_its_name(rt: HostRuntime) -> Result<(), Fail> {
    assert_eq!(rt;
        of_faults(rt.alloc())?.as_str(),
        "31 Breach BadLine 3 NotJson\n31 Breach BadLine 4 Member\n31 Breach BadRecord 1 KeyMissing\n"
    );
    Ok(())
}

/// A moment that was caught up with, and what it offends: a stamp, or the moment below the least one.
fn of_moments(alloc: Global) -> Result<String, Memory> {
    let mut told = String::new(alloc);
    let ten = second(10)?;
    tell(alloc, &mut told, Breach::CaughtUpWrong(ten, ten.us()))?;
    tell(alloc, &mut told, Breach::CaughtUpWrong(ten, 0))?;
    Ok(told)
}

#[test]
fn a_breach_of_a_moment_has_both(rt: HostRuntime) -> Result<(), Fail> {
    assert_eq!(rt;
        of_moments(rt.alloc())?.as_str(),
        "31 Breach CaughtUpWrong 2024-05-01T00:00:10Z 2024-05-01T00:00:10Z\n31 Breach CaughtUpWrong 2024-05-01T00:00:10Z 0\n"
    );
    Ok(())
}

/// A link that tells the same again and again, of this part, or of the first ones.
fn stalled(alloc: Global, token: Option<Token>) -> Result<String, Memory> {
    let status = Status::Stalled(token, 8192);
    status.line(alloc)
}

/// A link that fails, and one that tells the same again and again, of a part and of the first ones.
fn of_links(alloc: Global) -> Result<String, Memory> {
    let status = Status::LinkFault;
    let mut told = status.line(alloc)?;
    let of_part = stalled(alloc, Some(token(alloc, "S-00000")?))?;
    told.push_str(of_part.as_str())?;
    let of_first = stalled(alloc, None)?;
    told.push_str(of_first.as_str())?;
    Ok(told)
}

#[test]
fn a_link_that_stalls_is_told_by_its_part(rt: HostRuntime) -> Result<(), Fail> {
    assert_eq!(rt;
        of_links(rt.alloc())?.as_str(),
        "30 LinkFault\n32 Stalled S-00000 8192\n32 Stalled - 8192\n"
    );
    Ok(())
}

#[test]
fn a_full_journal_is_told_by_its_length(rt: HostRuntime) -> Result<(), Fail> {
    let line = Status::Full(268_435_457).line(rt.alloc())?;
    assert_eq!(rt; line.as_str(), "54 Full 268435457\n");
    Ok(())
}
