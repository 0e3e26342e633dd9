//! Reading a configuration, a recording and any other text to their ends.

ghost use Rattle.std.specs.Prelude.{◌≡◌, ◌≢◌, Err, IfErr, IfOk};
ghost use Rattle.mt_model.specs.declared.limits.TheConstants.{RECORDING_BYTES};
ghost use Rattle.mt_endings.specs.Moments.{HasRead, input};
ghost use Rattle.mt_endings.specs.Parts.{Configured, Recorded, StopsConfiguring, StopsReading, StopsRecording};

use crate::fault::Fault;
use mt_files::{ConfigFault, ConfigField, config as configuration, events};
use mt_model::limits::{CONFIGURATION_BYTES, RECORDING_BYTES};
use mt_model::{Config, Events};
use mt_outside::{ReadFault, Source, read_all};
use std::alloc::Global;

/// The configuration that a source has. What is too long is none, and its size is told.
pub fn read_configuration<C: Source>(alloc: Global, source: &mut C) -> Result<Config, Fault>
    ensures ok { IfOk result (λ config. Configured config (input (C.left source.old) (C.faults source.old)) (input (C.left source.new) (C.faults source.new))) }
    ensures err { IfErr result (λ fault. StopsConfiguring fault (input (C.left source.old) (C.faults source.old)) (input (C.left source.new) (C.faults source.new))) }
    ensures calm { result ≢ Err Fault.ReadFault → C.faults source.new ≡ C.faults source.old }
{
    match read_all(alloc, source, CONFIGURATION_BYTES) {
        Ok(bytes) => match configuration(alloc, &bytes) {
            Ok(config) => Ok(config),
            Err(ConfigFault::Field(field)) => Err(Fault::BadConfig(field)),
            Err(ConfigFault::Memory) => Err(Fault::Memory),
        },
        Err(ReadFault::Failed) => Err(Fault::ReadFault),
        Err(ReadFault::TooLong) => Err(Fault::BadConfig(ConfigField::Size)),
        Err(ReadFault::Memory) => Err(Fault::Memory),
    }
}

/// The events of the recording that a source has. Its text is let go before they are handed out.
pub fn read_recording<A: Source>(alloc: Global, source: &mut A) -> Result<Events, Fault>
    ensures ok { IfOk result (λ events. Recorded events (input (A.left source.old) (A.faults source.old)) (input (A.left source.new) (A.faults source.new))) }
    ensures err { IfErr result (λ fault. StopsRecording fault (input (A.left source.old) (A.faults source.old)) (input (A.left source.new) (A.faults source.new))) }
    ensures calm { result ≢ Err Fault.ReadFault → A.faults source.new ≡ A.faults source.old }
{
    let recording = match read_text(alloc, source) {
        Ok(recording) => recording,
        Err(fault) => return Err(fault),
    };
    match events(alloc, &recording) {
        Ok(events) => Ok(events),
        Err(fault) => Err(Fault::of_recording(fault)),
    }
}

/// The bytes of the text that a source has, which may be as long as a recording.
pub fn read_text<A: Source>(alloc: Global, source: &mut A) -> Result<Vec<u8>, Fault>
    ensures ok { IfOk result (λ text. HasRead RECORDING_BYTES (input (A.left source.old) (A.faults source.old)) (input (A.left source.new) (A.faults source.new)) text.items) }
    ensures err { IfErr result (λ fault. StopsReading fault (input (A.left source.old) (A.faults source.old)) (input (A.left source.new) (A.faults source.new))) }
    ensures calm { result ≢ Err Fault.ReadFault → A.faults source.new ≡ A.faults source.old }
{
    match read_all(alloc, source, RECORDING_BYTES) {
        Ok(text) => Ok(text),
        Err(ReadFault::Failed) => Err(Fault::ReadFault),
        Err(ReadFault::TooLong) => Err(Fault::TooLong),
        Err(ReadFault::Memory) => Err(Fault::Memory),
    }
}
