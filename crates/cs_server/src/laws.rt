ghost use Rattle.std.specs.Prelude.{◌≡◌, ℕ, List, Some, None, [], false};
ghost use Rattle.cs_link.specs.declared.feed.Feed.{Feed as AFeed};
ghost use Rattle.cs_link.specs.Honest.{IsHonestFor};
ghost use Rattle.cs_server.specs.Laws.{AnswersAsQueries, FeedsAreTold};
ghost use Rattle.cs_server.specs.Typed.{feed_told};

use crate::ServerLink;
use cs_link::Link;
use cs_script::ServerState;
use cs_types::Stamp;
use std::alloc::Global;

/// A law: a link just made over a state is honest for each stream that the state has, and tells the
/// feed of that stream, its moment, no fault, no READ so far, and the pace of its heartbeats; what
/// each call of a link keeps of this stands at `Link`.
pub fn server_links_are_honest<'a>(
    alloc: Global,
    state: &'a ServerState,
    moment: Stamp,
) -> ServerLink<'a>
    ensures feed { (stream : List ℕ) → ⟦<ServerLink<'a> as Link>⟧.feed result stream ≡ feed_told state.now stream }
    ensures honest { (stream : List ℕ) (f : AFeed) → feed_told state.now stream ≡ Some f → IsHonestFor stream (⟦<ServerLink<'a> as Link>⟧.feed result stream) (⟦<ServerLink<'a> as Link>⟧.present result) }
    ensures moment { ⟦<ServerLink<'a> as Link>⟧.moment result ≡ moment }
    ensures faults { ⟦<ServerLink<'a> as Link>⟧.faults result ≡ 0 }
    ensures caught_up { ⟦<ServerLink<'a> as Link>⟧.caught_up result ≡ 0 }
    ensures present { ⟦<ServerLink<'a> as Link>⟧.present result ≡ Some None }
    ensures reads { ⟦<ServerLink<'a> as Link>⟧.reads result ≡ Some [] }
    ensures reading { ⟦<ServerLink<'a> as Link>⟧.is_reading result ≡ false }
    ensures paced { ⟦<ServerLink<'a> as Link>⟧.paced result }
{
    ServerLink::new(alloc, state, moment)
}

/// A law: a READ with typed arguments is refused, or has the steps, as a query that asks for these
/// arguments.
pub fn answers_are_those_of_queries()
    ensures { AnswersAsQueries }
{}

/// A law: the feed that a link over a state tells under a name is that of the stream of this name,
/// and it tells the feed of each stream that the state has.
pub fn feeds_are_told_by_name()
    ensures { FeedsAreTold }
{}
