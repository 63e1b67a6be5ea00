// What the kinds of event ask for, whoever answers.

ghost use Rattle.std.specs.Prelude.{OnOk, IfOk};
ghost use Rattle.server_core.specs.Engine.{IsDoneButPass};

use crate::engine::Engine;
use crate::{Event, NoMemory};
use std::alloc::Allocator;

/// Does what the event at this place asks for, unless it is a `Pass`, which is left to be done until the moment that is
/// answered. Err(NoMemory) where a growth was refused.
pub fn do_all_but_pass<A: Allocator, R, E: Engine<A, R>>(
    engine: &mut E,
    rt: &R,
    place: usize,
    event: &Event<A>,
) -> Result<Option<u64>, NoMemory>
    requires { E.is_ready engine.old }
    ensures ready { OnOk result (E.is_ready engine.new) }
    ensures done { IfOk result (IsDoneButPass E.has_done place event.now engine.old engine.new) }
{
    match event {
        Event::Pass { now } => return Ok(Some(*now)),
        Event::Queue {
            addr,
            port,
            payload,
        } => engine.queue(rt, place, *addr, *port, payload.as_slice())?,
        Event::Hear {
            bytes,
            heard,
            arrived,
        } => engine.hear(rt, place, bytes.as_slice(), *heard, *arrived)?,
        Event::Tick { gateway, now } => engine.tick(rt, place, *gateway, *now)?,
        Event::Cancel { number } => engine.cancel(rt, place, *number)?,
        Event::Bad { line } => engine.tell_bad(rt, place, *line)?,
    }
    Ok(None)
}
