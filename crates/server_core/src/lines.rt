// The lines that answer calls of the desk. There is none where memory was wanting: then nothing is answered.

ghost use Rattle.std.specs.Prelude.{◌≡◌, ◌≢◌, Err, IfOk, IfErr};
ghost use Rattle.server_core.specs.Entries.{not_taken};
ghost use Rattle.server_core.specs.Server.{queued_line, heard_line, cancelled_line};

use crate::{DeskFault, DeskHeard, Line, NoMemory, QueueFault, TakeFault};
use gateway_book::CancelFault;
use std::alloc::{AllocError, Allocator};

/// The line for a payload that was queued, or not; Err(NoMemory) exactly where that is what was answered. Takes no memory.
pub fn queued_line<A: Allocator>(
    addr: u32,
    answer: Result<usize, QueueFault>,
) -> Result<Line<A>, NoMemory>
    ensures line { IfOk result (λ line. line ≡ queued_line addr answer) }
    ensures memory { IfOk result (λ line. answer ≢ Err QueueFault.NoMemory) }
    ensures wanting { IfErr result (λ none. answer ≡ Err QueueFault.NoMemory) }
{
    match answer {
        Ok(count) => Ok(Line::Queued { addr, count }),
        Err(fault) => match fault {
            QueueFault::NoMemory => Err(AllocError),
            fault => Ok(Line::NotQueued(fault)),
        },
    }
}

/// The line for a copy of an uplink that was taken in, or not; Err(NoMemory) exactly where that is what was answered. Takes
/// no memory.
pub fn heard_line<A: Allocator>(answer: Result<DeskHeard, DeskFault>) -> Result<Line<A>, NoMemory>
    ensures line { IfOk result (λ line. line ≡ heard_line answer) }
    ensures memory { IfOk result (λ line. answer ≢ Err DeskFault.NoMemory) }
    ensures wanting { IfErr result (λ none. answer ≡ Err DeskFault.NoMemory) }
{
    match answer {
        Ok(heard) => Ok(Line::Heard(heard)),
        Err(fault) => match fault {
            DeskFault::NoMemory => Err(AllocError),
            fault => Ok(Line::NotHeard(fault)),
        },
    }
}

/// The line for an uplink for which no ticket was given, for whatever reason. Takes no memory.
pub fn refused_line<A: Allocator>(number: u64, fault: TakeFault) -> Line<A>
    ensures { result ≡ not_taken number fault }
{
    match fault {
        TakeFault::Silent => Line::Silent { number },
        fault => Line::NotTaken { number, fault },
    }
}

/// The same, where a growth that was refused stops the run.
pub(crate) fn not_taken_line<A: Allocator>(
    number: u64,
    fault: TakeFault,
) -> Result<Line<A>, NoMemory>
    ensures line { IfOk result (λ line. line ≡ not_taken number fault) }
    ensures memory { IfOk result (λ line. fault ≢ TakeFault.NoMemory) }
    ensures wanting { IfErr result (λ none. fault ≡ TakeFault.NoMemory) }
{
    match fault {
        TakeFault::NoMemory => Err(AllocError),
        fault => Ok(refused_line(number, fault)),
    }
}

/// The line for a transmission that was cancelled, or not. Airtimes are in microseconds. Takes no memory.
pub fn cancelled_line<A: Allocator>(number: u64, answer: Result<u64, CancelFault>) -> Line<A>
    ensures { result ≡ cancelled_line number answer }
{
    match answer {
        Ok(airtime) => Line::Cancelled { number, airtime },
        Err(fault) => Line::NotCancelled { number, fault },
    }
}
