// The settings of bytes, as a text call answers them.
ghost use Rattle.std.specs.Prelude.{◌≡◌, IfOk, IfErr, Ok};
ghost use Rattle.settings_text.specs.SettingsOfBytes.{settings_in, IsNamed, IsRefusedBy};

use crate::ReadFault;
use crate::settings_reading::read_settings;
use server_desk::Settings;
use std::alloc::Global;
use text_words::TextFault;

/// The settings that some bytes say. `Settings`: they give none, by the name of the fault; bytes that are not UTF-8
/// are `NotToml`. `NoMemory`: a growth was refused.
pub fn settings_in(alloc: Global, bytes: &[u8]) -> Result<Settings<Global>, TextFault>
    ensures given { IfOk result (λ settings. settings_in bytes.now ≡ Ok settings) }
    ensures fault { IfErr result (λ fault. IsRefusedBy (settings_in bytes.now) fault) }
{
    match std::str::from_utf8(bytes) {
        Err(_) => Err(text_fault(ReadFault::NotToml)),
        Ok(text) => match read_settings(alloc, text) {
            Ok(settings) => Ok(settings),
            Err(fault) => Err(text_fault(fault)),
        },
    }
}

/// A fault of settings, as a text call answers it.
fn text_fault(fault: ReadFault) -> TextFault
    ensures { IsNamed fault result }
{
    match fault {
        ReadFault::NoMemory => TextFault::NoMemory,
        _ => TextFault::Settings(fault.name()),
    }
}
