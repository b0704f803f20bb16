// One command of a tape, carried out as soon as it is whole.
ghost use Rattle.std.specs.Prelude.{◌≡◌, ◌≤◌, length};
ghost use Rattle.receiver.specs.Record.{Given as GivenReceiver};
ghost use Rattle.sample_calls.specs.Call.{called};
ghost use Rattle.little_endian.specs.Samples.{stored_bytes};
ghost use Rattle.tape.specs.Reading.{samples_end, sample_parts, carrier_read, timing_read, samples_behind, samples_read, reset as resetRead};
ghost use Rattle.tape.specs.Desk.{Given};
ghost use Rattle.tape.specs.Steps.{places, symbol_parts, sampled, refused as refusedWith, acted, stepped, answer_of, symbols_of, sent_of, StepGiven};

use crate::answer::{Carried, Step, Stop};
use crate::command::Command;
use crate::desk::{Desk, with_carrier, with_timing};
use crate::fields::{
    CARRIER_END, COMMAND_END, COUNT_END, LARGEST_COUNT, PARTS, SAMPLE, SELECTOR_END, TIMING_END,
    carrier_values, count_of, timing_values,
};
use little_endian::{read_samples, write_samples};
use receiver::Receiver;
use values::{Counts, Refusal};

// A refusal behind so many bytes.
fn refuse(reason: Refusal, read: usize) -> Step
    ensures { result ≡ answer_of 0 (refusedWith reason read) }
{
    Step::Refused(Stop {
        reason: reason,
        read: read,
    })
}

// A command without symbols.
fn silent(desk: Desk, used: usize) -> Step
    ensures { result ≡ Step.Done (record { desk = desk; used = used; written = 0 }) }
{
    Step::Done(Carried {
        desk: desk,
        used: used,
        written: 0,
    })
}

// O4: the carrier's set-up.
fn carrier_step(desk: Desk, bytes: &[u8]) -> Step
    requires { Given desk }
    ensures outcome { result ≡ answer_of 0 (acted desk (carrier_read bytes.now)) }
    ensures given { StepGiven result }
{
    if bytes.len() < SELECTOR_END {
        return Step::Wants(SELECTOR_END - bytes.len());
    }
    let code = bytes[1] as u32;
    if !plain::constellation_named(code) {
        return refuse(Refusal::Undefined, SELECTOR_END);
    }
    if bytes.len() < CARRIER_END {
        return Step::Wants(CARRIER_END - bytes.len());
    }
    let answer = receiver::set_up_carrier(plain::constellation(code), carrier_values(bytes));
    match answer {
        Ok(c) => silent(with_carrier(desk, c), CARRIER_END),
        Err(n) => refuse(n, CARRIER_END),
    }
}

// O5: timing's set-up.
fn timing_step(desk: Desk, bytes: &[u8]) -> Step
    requires { Given desk }
    ensures outcome { result ≡ answer_of 0 (acted desk (timing_read bytes.now)) }
    ensures given { StepGiven result }
{
    if bytes.len() < SELECTOR_END {
        return Step::Wants(SELECTOR_END - bytes.len());
    }
    let code = bytes[1] as u32;
    if !plain::detector_named(code) {
        return refuse(Refusal::Undefined, SELECTOR_END);
    }
    if bytes.len() < TIMING_END {
        return Step::Wants(TIMING_END - bytes.len());
    }
    let answer = receiver::set_up_timing(timing_values(bytes, plain::detector(code)));
    match answer {
        Ok(t) => silent(with_timing(desk, t), TIMING_END),
        Err(n) => refuse(n, TIMING_END),
    }
}

// The receiver after a call, and how many bytes of symbols were written.
#[derive(Clone, Copy)]
struct Sent {
    receiver: Receiver,
    written: usize,
}

// O8: one call of the receiver, with 2,048 places. Its symbols are written.
fn send(r: Receiver, input: &[f32], output: &mut [u8]) -> Sent
    requires { GivenReceiver r }
    ensures sent { result ≡ sent_of (length output.old) (called r input.now places places) }
    ensures output { output.new ≡ stored_bytes (symbol_parts (called r input.now places places)) output.old }
    ensures given { GivenReceiver result.receiver }
{
    let mut strobes = [0.0f32; PARTS];
    let mut symbols = [0.0f32; PARTS];
    let ran = sample_calls::run(r, input, &mut strobes, &mut symbols);
    let answer = ran.answer;
    let receiver = ran.receiver;
    let parts = 2 * Counts::from(answer).produced;
    Sent {
        receiver: receiver,
        written: SAMPLE * write_samples(&symbols[..parts], output),
    }
}

// O8: one call of the receiver on the samples of a command that is whole. Its symbols are written.
fn call(r: Receiver, bytes: &[u8], n: usize, output: &mut [u8]) -> Step
    requires given_receiver { GivenReceiver r }
    requires whole { samples_end n ≤ length bytes.now }
    requires few { n ≤ 2048 }
    ensures outcome { result ≡ answer_of (length output.old) (sampled (called r (sample_parts bytes.now n) places places) (samples_end n)) }
    ensures output { output.new ≡ stored_bytes (symbol_parts (called r (sample_parts bytes.now n) places places)) output.old }
    ensures given { StepGiven result }
{
    let end = COUNT_END + SAMPLE * n;
    let mut input = [0.0f32; PARTS];
    let parts = 2 * read_samples(&bytes[COUNT_END..end], &mut input);
    let sent = send(r, &input[..parts], output);
    let receiver = sent.receiver;
    Step::Done(Carried {
        desk: Desk::Both(receiver),
        used: end,
        written: sent.written,
    })
}

// O6: samples come when both loops are set up; the command is whole with the last of them.
fn samples_on(desk: Desk, bytes: &[u8], n: usize, output: &mut [u8]) -> Step
    requires given_2 { Given desk }
    requires few { n ≤ 2048 }
    ensures outcome { result ≡ answer_of (length output.old) (acted desk (samples_behind bytes.now n)) }
    ensures output { output.new ≡ stored_bytes (symbols_of (acted desk (samples_behind bytes.now n))) output.old }
    ensures given { StepGiven result }
{
    match desk {
        Desk::Empty => refuse(Refusal::Early, COUNT_END),
        Desk::Timing(_) => refuse(Refusal::Early, COUNT_END),
        Desk::Carrier(_) => refuse(Refusal::Early, COUNT_END),
        Desk::Both(r) => {
            let end = COUNT_END + SAMPLE * n;
            if bytes.len() < end {
                return Step::Wants(end - bytes.len());
            }
            call(r, bytes, n, output)
        }
    }
}

// O6, O8: samples, behind their count.
fn samples_step(desk: Desk, bytes: &[u8], output: &mut [u8]) -> Step
    requires { Given desk }
    ensures outcome { result ≡ answer_of (length output.old) (acted desk (samples_read bytes.now)) }
    ensures output { output.new ≡ stored_bytes (symbols_of (acted desk (samples_read bytes.now))) output.old }
    ensures given { StepGiven result }
{
    if bytes.len() < COUNT_END {
        return Step::Wants(COUNT_END - bytes.len());
    }
    let n = count_of(bytes);
    if n > LARGEST_COUNT {
        return refuse(Refusal::Undefined, COUNT_END);
    }
    samples_on(desk, bytes, n, output)
}

// O9: a reset of both loops.
fn reset_step(desk: Desk) -> Step
    requires { Given desk }
    ensures outcome { result ≡ answer_of 0 (acted desk resetRead) }
    ensures given { StepGiven result }
{
    match desk {
        Desk::Empty => refuse(Refusal::Early, COMMAND_END),
        Desk::Timing(_) => refuse(Refusal::Early, COMMAND_END),
        Desk::Carrier(_) => refuse(Refusal::Early, COMMAND_END),
        Desk::Both(r) => silent(Desk::Both(receiver::reset(r)), COMMAND_END),
    }
}

// O3: the command at the front of the bytes. Where its next field is not whole, it wants so many bytes more. Where it
// is whole, it is carried out, and its symbols are written to the front of the output, as many as it has places for.
pub fn step(desk: Desk, bytes: &[u8], output: &mut [u8]) -> Step
    requires { Given desk }
    ensures outcome { result ≡ answer_of (length output.old) (stepped desk bytes.now) }
    ensures output { output.new ≡ stored_bytes (symbols_of (stepped desk bytes.now)) output.old }
    ensures given { StepGiven result }
{
    if bytes.len() < COMMAND_END {
        return Step::Wants(COMMAND_END - bytes.len());
    }
    match Command::try_from(bytes[0]) {
        Ok(Command::Carrier) => carrier_step(desk, bytes),
        Ok(Command::Timing) => timing_step(desk, bytes),
        Ok(Command::Samples) => samples_step(desk, bytes, output),
        Ok(Command::Reset) => reset_step(desk),
        Err(reason) => refuse(reason, COMMAND_END),
    }
}
