ghost use Rattle.std.specs.Prelude.{◌≡◌, ◌-◌, ◌*◌, ◌/◌, ◌<◌};
ghost use Rattle.std.specs.Int.{div_ceil};
ghost use Rattle.radio_airtime.specs.DataRate.{spreading_factor_of};
ghost use Rattle.radio_airtime.specs.TimeOnAir.{airtime_of, symbol_us, low_data_rate_optimisation};

use crate::DataRate;

/// The preamble in quarters of a symbol: 8 symbols, as LoRaWAN sends, and the 4.25 that the radio adds (Semtech SX1276 datasheet,
/// section 4.1.1.7).
const PREAMBLE_QUARTERS: u64 = 4 * 8 + 17;

/// The time on air in microseconds of a PHYPayload of `len` bytes, 0 to 255, from the first symbol of
/// the preamble on (Semtech SX1276 datasheet, section 4.1.1.7, "Time on air"), as a downlink is sent: a
/// preamble of 8 symbols, the explicit header, coding rate 4/5 and no CRC, with which an uplink may last
/// longer. Nothing is looked at but the length: a length above `max_phy` has its time too.
pub fn airtime(rate: DataRate, len: u8) -> u64
    ensures value { result ≡ airtime_of rate len }
    ensures positive { 0 < result }
    ensures short { result < 10000000 }
{
    let bits = (8 * u64::from(len) + 28).saturating_sub(4 * rate.spreading_factor());
    let symbols = 8 + 5 * blocks_of(rate, bits);
    (PREAMBLE_QUARTERS + 4 * symbols) * quarter_symbol_us(rate)
}

/// How many blocks of coded symbols so many bits take, each of `4 (SF - 2 DE)` bits. These stand here as numbers, since to divide
/// by one that is known beforehand is cheap.
fn blocks_of(rate: DataRate, bits: u64) -> u64
    ensures { result ≡ div_ceil bits (4 * (spreading_factor_of rate - 2 * low_data_rate_optimisation rate)) }
{
    match rate {
        DataRate::Dr0 | DataRate::Dr2 => bits.div_ceil(40),
        DataRate::Dr1 | DataRate::Dr3 => bits.div_ceil(36),
        DataRate::Dr4 => bits.div_ceil(32),
        DataRate::Dr5 | DataRate::Dr6 => bits.div_ceil(28),
    }
}

/// A quarter of a symbol in microseconds, the greatest step in which every time on air is whole.
fn quarter_symbol_us(rate: DataRate) -> u64
    ensures { result ≡ symbol_us rate / 4 }
{
    match rate {
        DataRate::Dr0 => 8192,
        DataRate::Dr1 => 4096,
        DataRate::Dr2 => 2048,
        DataRate::Dr3 => 1024,
        DataRate::Dr4 => 512,
        DataRate::Dr5 => 256,
        DataRate::Dr6 => 128,
    }
}
