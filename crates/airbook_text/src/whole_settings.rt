// The settings of a server that listens.
ghost use Rattle.std.specs.Prelude.{◌≡◌, ◌≢◌, IfOk, IfErr, IfSome, Ok};
ghost use Rattle.text_words.specs.Fault.{CountsReads};
ghost use Rattle.settings_text.specs.SettingsOfBytes.{settings_in};
ghost use Rattle.run_lines.specs.RunInput.{KeepsInputLimit};
ghost use Rattle.airbook_text.specs.ListenSettings.{NamesSettings};

use run_lines::read_all;
use server_core::Settings;
use settings_text::settings_in;
use std::alloc::Global;
use text_lines::ByteIn;
use text_words::TextFault;

/// The settings that all bytes of an input say. `Settings`: they give none, by the name of their fault. `Read`: a call of the
/// reader failed. `TooMuch`: the input has more than 2^28 bytes. `NoMemory`: a growth was refused.
pub fn read_whole_settings<R: ByteIn>(
    alloc: Global,
    reader: &mut R,
) -> Result<Settings<Global>, TextFault>
    ensures given { IfOk result (λ settings. IfSome (R.left reader.old) (λ all. settings_in all ≡ Ok settings)) }
    ensures fault { NamesSettings (R.left reader.old) result }
    ensures unwritten { IfErr result (λ fault. fault ≢ TextFault.Write) }
    ensures limit { KeepsInputLimit (R.left reader.old) result }
    ensures read { CountsReads (R.failed_calls reader.old) (R.failed_calls reader.new) result }
{
    match read_all(alloc, reader) {
        Ok(bytes) => settings_in(alloc, bytes.as_slice()),
        Err(fault) => Err(fault),
    }
}
