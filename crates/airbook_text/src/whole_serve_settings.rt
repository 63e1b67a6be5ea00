// The settings of a server that packet forwarders are pointed at.
ghost use Rattle.std.specs.Prelude.{◌≡◌, ◌≢◌, IfOk, IfErr, IfSome, Ok};
ghost use Rattle.text_words.specs.Fault.{CountsReads};
ghost use Rattle.run_lines.specs.RunInput.{KeepsInputLimit};
ghost use Rattle.serve_settings.specs.ServeSettings.{given};
ghost use Rattle.airbook_text.specs.WholeServeSettings.{serve_settings_in, IsNamed, IsRefusedBy, NamesServeSettings};

use run_lines::read_all;
use serve_settings::{ServeFault, ServeSettings, read_serve_settings};
use settings_text::ReadFault;
use std::alloc::Global;
use text_lines::ByteIn;
use text_words::TextFault;

/// The settings that all bytes of an input say to a server that packet forwarders are pointed at. `Settings`: they give none, by
/// the name of their fault. `Read`: a call of the reader failed. `TooMuch`: the input has more than 2^28 bytes. `NoMemory`: a growth
/// was refused.
pub fn read_whole_serve_settings<R: ByteIn>(
    alloc: Global,
    reader: &mut R,
) -> Result<ServeSettings, TextFault>
    ensures given { IfOk result (λ s. IfSome (R.left reader.old) (λ all. serve_settings_in all ≡ Ok (given s))) }
    ensures fault { NamesServeSettings (R.left reader.old) result }
    ensures unwritten { IfErr result (λ fault. fault ≢ TextFault.Write) }
    ensures limit { KeepsInputLimit (R.left reader.old) result }
    ensures read { CountsReads (R.failed_calls reader.old) (R.failed_calls reader.new) result }
{
    match read_all(alloc, reader) {
        Ok(bytes) => serve_settings_in(alloc, bytes.as_slice()),
        Err(fault) => Err(fault),
    }
}

/// The settings that some bytes say to such a server. Bytes that are not UTF-8 are `NotToml`.
fn serve_settings_in(alloc: Global, bytes: &[u8]) -> Result<ServeSettings, TextFault>
    ensures given { IfOk result (λ s. serve_settings_in bytes.now ≡ Ok (given s)) }
    ensures fault { IfErr result (λ fault. IsRefusedBy (serve_settings_in bytes.now) fault) }
{
    match std::str::from_utf8(bytes) {
        Err(_) => Err(text_fault(ServeFault::Read(ReadFault::NotToml))),
        Ok(text) => match read_serve_settings(alloc, text) {
            Ok(settings) => Ok(settings),
            Err(fault) => Err(text_fault(fault)),
        },
    }
}

/// A fault of settings, as a text call answers it.
fn text_fault(fault: ServeFault) -> TextFault
    ensures { IsNamed fault result }
{
    match fault {
        ServeFault::Read(ReadFault::NoMemory) => TextFault::NoMemory,
        _ => TextFault::Settings(fault.name()),
    }
}
