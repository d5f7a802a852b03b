ghost use Rattle.std.specs.Prelude.{◌≡◌, ◌≤◌, ◌*◌};
ghost use Rattle.std.specs.Option.{unwrap_or};
ghost use Rattle.cs_place.specs.Part.{IsBefore};
ghost use Rattle.cs_link.specs.Reading.{end_of};
ghost use Rattle.cs_steps.specs.Cursor.{closing_of};
ghost use Rattle.cs_steps.specs.Steps.{last_moment, has_ended};

use cs_link::{Closing, ReadArgs};
use cs_place::Part;
use cs_steps::Span;
use cs_types::Stamp;

/// The end that was asked for; the greatest stamp where there is none.
fn end_of(end: Option<Stamp>) -> Stamp
    ensures { result ≡ unwrap_or end 253402300799999999 }
{
    if let Some(end) = end {
        return end;
    }
    match Stamp::of(Stamp::GREATEST) {
        Some(greatest) => greatest,
        None => unreachable!(),
    }
}

/// When a READ with these arguments reads.
pub(crate) fn span_of(args: &ReadArgs, moment: Stamp) -> Span
    ensures start { result.start ≡ args.now.start }
    ensures end { result.end ≡ end_of args.now }
    ensures moment { result.moment ≡ moment }
    ensures gap { result.gap ≡ args.now.heartbeat_ms * 1000 }
{
    Span {
        start: args.start,
        end: end_of(args.end),
        moment,
        gap: u64::from(args.heartbeat_ms) * 1000,
    }
}

pub(crate) fn top_of(span: &Span, part: &Part) -> Stamp
    requires { IsBefore span.now.start part.now.until }
    ensures { result ≡ last_moment span.now.end span.now.moment part.now.until }
{
    span.top(part.until)
}

pub(crate) fn has_ended(span: &Span, part: &Part) -> bool
    ensures { result ≡ has_ended span.now.end span.now.moment part.now.until }
{
    span.has_ended(part.until)
}

pub(crate) fn closing_of(span: &Span, part: &Part) -> Closing
    ensures { result ≡ closing_of span.now.end span.now.moment part.now.until }
{
    span.closing(part.until)
}

/// From which moment on the children of a part are listed: its end, where it has one.
pub(crate) fn children_from(part: &Part, start: Stamp) -> Stamp
    ensures { result ≡ unwrap_or part.now.until start }
{
    match part.until {
        Some(until) => until,
        None => start,
    }
}
