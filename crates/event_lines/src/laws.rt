ghost use Rattle.event_lines.specs.Laws.{EventsReadBack};

use std::alloc::Allocator;

/// A run reads of the line of an event just that event, whatever the devices of its settings are; for events whose numbers are of
/// their types, and whose lines have at most 1,024 bytes.
pub fn law_events_read_back<A: Allocator>()
    ensures { EventsReadBack A }
{}
