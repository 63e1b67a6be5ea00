// What a server opens with.
ghost use Rattle.std.specs.Prelude.{◌≡◌, ◌≤◌, None, All, IfOk, MatchOption, IsOkUnless};
ghost use Rattle.server_core.specs.Opened.{AreBooksFor, IsWhole};
ghost use Rattle.server_core.specs.Resumed.{HasNoNumbers};
ghost use Rattle.server_desk.specs.Settings.{AreSettings};
ghost use Rattle.serve_opening.specs.Faults.{opening_fault, most_high};
ghost use Rattle.serve_opening.specs.Opening.{IsOpening, shown};

use crate::device::devices_of;
use crate::fault::fault_of;
use crate::gateway::{gateways_of, settings_of};
use crate::note::notes_of;
use crate::waiting::waiting_of;
use crate::{Note, OpeningFault};
use serve_journal::{JournalState, Payload};
use serve_settings::Forwarder;
use server_core::{Book, DeviceSetting, GatewaySetting, NoMemory, Settings};
use std::alloc::Allocator;

/// What a server opens with.
#[derive(Drop)]
pub struct Opening<A: Allocator + Copy> {
    /// The settings: each gateway with the cap and the gap that its book has, each device with the greater of both counters where
    /// its session is the journal's.
    pub settings: Settings<A>,
    /// The gateways' books, in the order of the settings.
    pub books: Vec<Book<A>, A>,
    /// What each gateway's clock shows at least, in microseconds, in the order of the settings.
    pub highs: Vec<u64, A>,
    /// The address of each device, with what tells its session from others of the same address, in the order of the settings.
    pub sessions: Vec<(u32, [u8; 4]), A>,
    /// What waits for devices, in the journal's order: each payload with its device's address.
    pub waiting: Vec<(u32, Payload), A>,
    /// What an operator is to be told.
    pub notes: Vec<Note, A>,
}

/// What a server opens with, out of its settings, the packet forwarder of each gateway at the gateway's place, and what its journal
/// says. Gateways are matched by EUI. A gateway that the journal has takes its book from there, under its cap and its gap of the
/// settings where the book may have them, else under the journal's. Devices are matched by address and session. A device that the
/// journal has goes on with the greater of both counters, and its queue waits. What the settings don't have is forgotten. Notes
/// tell all that is forgotten, and what isn't as it is set. `NoMemory` comes only where a growth was refused.
pub fn opening_of<A: Allocator + Copy, B: Allocator>(
    alloc: A,
    settings: &Settings<B>,
    forwarders: &[Forwarder],
    state: JournalState<A>,
) -> Result<Opening<A>, OpeningFault>
    ensures fault { MatchOption (opening_fault state) (IsOkUnless result OpeningFault.NoMemory) (λ fault. result ≡ Err fault) }
    ensures opening { IfOk result (λ opening. IsOpening settings.now forwarders.now state (shown opening)) }
    ensures resumes { IfOk result (λ opening. AreBooksFor opening.settings.gateways opening.books.items) }
    ensures whole { IfOk result (λ opening. All IsWhole opening.books.items) }
    ensures early { IfOk result (λ opening. All (λ high. high ≤ most_high) opening.highs.items) }
    ensures numbers { IfOk result (λ opening. All (λ m. HasNoNumbers m.book) state.gateways → All HasNoNumbers opening.books.items) }
{
    if let Some(fault) = fault_of(&state) {
        return Err(fault);
    }
    match opened(alloc, settings, forwarders, state) {
        Ok(opening) => Ok(opening),
        Err(_) => Err(OpeningFault::NoMemory),
    }
}

/// The same where the journal has nothing that a server doesn't open with.
fn opened<A: Allocator + Copy, B: Allocator>(
    alloc: A,
    settings: &Settings<B>,
    forwarders: &[Forwarder],
    state: JournalState<A>,
) -> Result<Opening<A>, NoMemory>
    requires { opening_fault state ≡ None }
    ensures opening { IfOk result (λ opening. IsOpening settings.now forwarders.now state (shown opening)) }
    ensures resumes { IfOk result (λ opening. AreBooksFor opening.settings.gateways opening.books.items) }
    ensures whole { IfOk result (λ opening. All IsWhole opening.books.items) }
    ensures early { IfOk result (λ opening. All (λ high. high ≤ most_high) opening.highs.items) }
    ensures numbers { IfOk result (λ opening. All (λ m. HasNoNumbers m.book) state.gateways → All HasNoNumbers opening.books.items) }
{
    let JournalState {
        gateways: mut known,
        devices: known_devices,
    } = state;
    let gateways = gateways_of(alloc, settings.gateways(), forwarders, &mut known)?;
    let devices = devices_of(alloc, settings.devices(), &known_devices)?;
    let set = settings_of(alloc, &gateways.books)?;
    let notes = notes_of(
        alloc,
        settings.gateways(),
        &set,
        &known,
        &devices.sessions,
        &known_devices,
    )?;
    let waiting = waiting_of(alloc, &devices.sessions, known_devices)?;
    Ok(Opening {
        settings: accepted(set, devices.settings),
        books: gateways.books,
        highs: gateways.highs,
        sessions: devices.sessions,
        waiting,
        notes,
    })
}

/// Settings of these lists, which are those of accepted settings. Takes no memory.
fn accepted<A: Allocator>(
    gateways: Vec<GatewaySetting, A>,
    devices: Vec<DeviceSetting, A>,
) -> Settings<A>
    requires { AreSettings gateways.items devices.items }
    ensures { result ≡ record { gateways = gateways.items; devices = devices.items } }
{
    let Ok(settings) = Settings::new(gateways, devices) else {
        unreachable!()
    };
    settings
}
