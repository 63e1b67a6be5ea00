// Times on air, which the model in tests/lorawan.py gives too, edges of sub-bands, and what is fit for a reservation.

use radio_airtime::{DataRate, airtime};
use radio_bands::{Band, limit_us};
use resv_list::Reservation;
use std::test::Fail;
use test_asserts::{equal, equal_at};

/// The shortest downlink at each rate, and the longest and the shortest frames, with their microseconds on air.
static TIMES_ON_AIR: [(DataRate, u8, u64); 12] = [
    (DataRate::Dr0, 12, 991_232),
    (DataRate::Dr1, 12, 577_536),
    (DataRate::Dr2, 12, 288_768),
    (DataRate::Dr3, 12, 144_384),
    (DataRate::Dr4, 12, 72_192),
    (DataRate::Dr5, 12, 41_216),
    (DataRate::Dr6, 12, 20_608),
    (DataRate::Dr0, 64, 2_793_472),
    (DataRate::Dr0, 255, 9_019_392),
    (DataRate::Dr3, 255, 1_250_304),
    (DataRate::Dr5, 255, 394_496),
    (DataRate::Dr5, 0, 20_736),
];

#[test]
fn times_on_air() -> Result<(), Fail> {
    for (rate, len, time_us) in &TIMES_ON_AIR {
        equal_at(rate, &airtime(*rate, *len), time_us)?;
    }
    Ok(())
}

/// Centres of channels at the edges of sub-bands.
static CHANNELS: [(u32, DataRate, Option<Band>); 5] = [
    (868_537_500, DataRate::Dr5, Some(Band::M)),
    (868_537_501, DataRate::Dr5, None),
    (865_000_000, DataRate::Dr5, None),
    (865_000_000, DataRate::Dr0, None),
    (869_525_000, DataRate::Dr0, Some(Band::P)),
];

#[test]
fn bands_of_channels_at_the_edges() -> Result<(), Fail> {
    for (freq_hz, rate, band) in &CHANNELS {
        equal_at(freq_hz, &Band::of(*freq_hz, *rate), band)?;
    }
    Ok(())
}

/// The sub-bands' edges in Hz (ETSI EN 300 220-2, annex B, as this project's profile has them).
static EDGES: [(Band, u32, u32); 6] = [
    (Band::K, 863_000_000, 865_000_000),
    (Band::L, 865_000_000, 868_000_000),
    (Band::M, 868_000_000, 868_600_000),
    (Band::N, 868_700_000, 869_200_000),
    (Band::P, 869_400_000, 869_650_000),
    (Band::Q, 869_700_000, 870_000_000),
];

/// Of channels that reach so far to either side of their centre, the first and the last of each sub-band, and those one Hz
/// beyond.
fn keep_within(rate: DataRate, half_hz: u32) -> Result<(), Fail> {
    for (band, low_hz, high_hz) in &EDGES {
        let (first, last) = (low_hz.wrapping_add(half_hz), high_hz.wrapping_sub(half_hz));
        let found = [
            Band::of(first, rate),
            Band::of(first.wrapping_sub(1), rate),
            Band::of(last, rate),
            Band::of(last.wrapping_add(1), rate),
        ];
        equal_at(&rate, &found, &[Some(*band), None, Some(*band), None])?;
    }
    Ok(())
}

#[test]
fn channels_keep_within_the_edges_of_their_bands() -> Result<(), Fail> {
    keep_within(DataRate::Dr5, 62_500)?;
    keep_within(DataRate::Dr6, 125_000)
}

/// Bandwidth in Hz and the greatest PHYPayload in bytes (RP002, EU863-870, as this project's profile has them).
static RATES: [(u8, DataRate, u32, u8); 7] = [
    (0, DataRate::Dr0, 125_000, 64),
    (1, DataRate::Dr1, 125_000, 64),
    (2, DataRate::Dr2, 125_000, 64),
    (3, DataRate::Dr3, 125_000, 128),
    (4, DataRate::Dr4, 125_000, 255),
    (5, DataRate::Dr5, 125_000, 255),
    (6, DataRate::Dr6, 250_000, 255),
];

#[test]
fn data_rates_by_their_numbers() -> Result<(), Fail> {
    for (number, rate, bandwidth_hz, max_phy) in &RATES {
        equal(&DataRate::from_number(*number), &Some(*rate))?;
        let told = (rate.number(), rate.bandwidth_hz(), rate.max_phy());
        equal_at(rate, &told, &(*number, *bandwidth_hz, *max_phy))?;
    }
    equal(&DataRate::from_number(7), &None)
}

/// The airtime that an hour allows, in microseconds.
static LIMITS: [(Band, u64); 6] = [
    (Band::K, 3_600_000),
    (Band::L, 36_000_000),
    (Band::M, 36_000_000),
    (Band::N, 3_600_000),
    (Band::P, 360_000_000),
    (Band::Q, 36_000_000),
];

#[test]
fn limits_of_bands() -> Result<(), Fail> {
    for (band, limit) in &LIMITS {
        equal_at(band, &limit_us(*band), limit)?;
    }
    Ok(())
}

/// Start, channel, rate and length, and where they are fit the airtime, the end and the sub-band.
type Made = (u64, u32, DataRate, u8, Option<(u64, u64, Band)>);

/// The first ends at 2^61, the end of time.
static RESERVATIONS: [Made; 6] = [
    (
        2_305_843_009_213_652_736,
        868_100_000,
        DataRate::Dr5,
        12,
        Some((41_216, 2_305_843_009_213_693_952, Band::M)),
    ),
    (
        2_305_843_009_213_652_737,
        868_100_000,
        DataRate::Dr5,
        12,
        None,
    ),
    (0, 865_000_000, DataRate::Dr0, 12, None),
    (
        0,
        868_100_000,
        DataRate::Dr0,
        64,
        Some((2_793_472, 2_793_472, Band::M)),
    ),
    (0, 868_100_000, DataRate::Dr0, 65, None),
    (
        10_000_000,
        868_100_000,
        DataRate::Dr5,
        12,
        Some((41_216, 10_041_216, Band::M)),
    ),
];

/// What a reservation with these fields tells, where they are fit.
fn told(start: u64, freq_hz: u32, rate: DataRate, len: u8) -> Option<(u64, u64, Band)> {
    let made = Reservation::new(1, start, freq_hz, rate, len)?;
    Some((made.airtime(), made.end(), made.band()))
}

#[test]
fn reservations_that_are_fit_last_their_time_on_air() -> Result<(), Fail> {
    for (start, freq_hz, rate, len, wanted) in &RESERVATIONS {
        equal_at(start, &told(*start, *freq_hz, *rate, *len), wanted)?;
    }
    Ok(())
}
