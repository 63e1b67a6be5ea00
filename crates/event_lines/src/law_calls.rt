// The law is called here, so that its clause can say no less than its statement.
ghost use Rattle.event_lines.specs.Laws.{EventsReadBack};

use crate::laws::law_events_read_back;
use std::alloc::Allocator;

/// The law by a call of its own: so it ensures just this statement, and asks for nothing.
fn each_law<A: Allocator>()
    ensures read_back { EventsReadBack A }
{
    law_events_read_back::<A>();
}
