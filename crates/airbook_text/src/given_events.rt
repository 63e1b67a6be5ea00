// What the input of a run asks for.
ghost use Rattle.std.specs.Prelude.{◌≡◌, Ok, IfOk, IfErr};
ghost use Rattle.std.specs.Str.Lines.{lines};
ghost use Rattle.settings_text.specs.SettingsOfBytes.{settings_in, IsRefusedBy};
ghost use Rattle.run_lines.specs.RunInput.{settings_part, event_part};
ghost use Rattle.run_lines.specs.RunEvents.{events_of};

use run_lines::{events_from, parts_of};
use server_core::{Event, Settings};
use settings_text::settings_in;
use std::alloc::Global;
use text_words::TextFault;

/// The settings that an input says up to the first line that is exactly `---`.
pub(crate) fn given_settings(alloc: Global, input: &[u8]) -> Result<Settings<Global>, TextFault>
    ensures given { IfOk result (λ settings. settings_in (settings_part input.now) ≡ Ok settings) }
    ensures fault { IfErr result (λ fault. IsRefusedBy (settings_in (settings_part input.now)) fault) }
{
    let (text, _) = parts_of(input);
    settings_in(alloc, text)
}

/// The events that its other lines ask for, and nothing of the input is kept.
pub(crate) fn given_events(
    alloc: Global,
    settings: &Settings<Global>,
    input: Vec<u8>,
) -> Result<Vec<Event<Global>>, TextFault>
    ensures given { IfOk result (λ events. events.items ≡ events_of settings.now.devices (lines (event_part input.items))) }
    ensures fault { IfErr result (λ fault. fault ≡ TextFault.NoMemory) }
{
    let (_, text) = parts_of(input.as_slice());
    let events = match events_from(alloc, settings.devices(), 1, text) {
        Ok(events) => events,
        Err(_) => return Err(TextFault::NoMemory),
    };
    let _left = given_back(input);
    Ok(events)
}

/// Gives the bytes of an input back, once its events are made, which have bytes of their own; all but a block for one: the C
/// library maps a block as large as an input by itself, and once it has freed one it maps no smaller block any more, so that
/// lists which grow would leave holes in its heap.
pub(crate) fn given_back(bytes: Vec<u8>) -> Vec<u8> {
    let mut bytes = bytes;
    bytes.clear();
    bytes.shrink_to(1);
    bytes
}
