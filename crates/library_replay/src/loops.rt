// The loops alone, set up as the receiver is. Codes and numbers are those of the C interface.
use answers::same;
use plain_timing::{TimingReadings, TimingValues};
use receiver::CarrierValues;
use train_receiver::{
    CarrierReadings, trr_carrier_readings, trr_carrier_set_up, trr_complex_readings,
    trr_complex_set_up, trr_real_readings, trr_real_set_up,
};

// The number of the receiver's set-up: that of timing's, and of the carrier's where timing accepts (R4).
pub(crate) fn number_of(code: u32, t: TimingValues, c: CarrierValues) -> u32 {
    let timing = trr_complex_set_up(t);
    let carrier = trr_carrier_set_up(code, c);
    if timing.number > 0 {
        return timing.number;
    }
    carrier.number
}

// Whether two timing states have the same detector, instant and pace.
fn same_readings(a: TimingReadings, b: TimingReadings) -> bool {
    a.values.ted == b.values.ted
        && same(a.next_strobe, b.next_strobe)
        && same(a.sps_estimate, b.sps_estimate)
}

// Whether the readings of both timing loops are those of the receiver.
pub(crate) fn timing_agrees(t: TimingValues, readings: TimingReadings) -> bool {
    let complex = trr_complex_set_up(t);
    let real = trr_real_set_up(t);
    same_readings(trr_complex_readings(complex.state), readings)
        && same_readings(trr_real_readings(real.state), readings)
}

// Whether the carrier has the receiver's constellation and phase.
pub(crate) fn carrier_agrees(code: u32, c: CarrierValues, readings: CarrierReadings) -> bool {
    let made = trr_carrier_set_up(code, c);
    let told = trr_carrier_readings(made.state);
    told.constellation == readings.constellation && told.phase == readings.phase
}
