ghost use Rattle.std.specs.Prelude.{◌≡◌, ◌≤◌, length, take, Ok, IfOk, IfErr};
ghost use Rattle.sd_model_settings.specs.Settings.{settings};
ghost use Rattle.sd_model_call.specs.Call.{IsNotTaken};
ghost use Rattle.sd_model_call.specs.Opening.{AreRead, IsAccepted};
ghost use Rattle.sd_outside.specs.Places.{place_of};
ghost use Rattle.sd_opening.specs.Answers.{answer_of};
ghost use Rattle.sd_opening.specs.Causes.{HoldsDeciding, IsRefused};

use crate::opening::open;
use crate::status::{Part, Status};
use crate::telling::tell_values;
use log::Log;
use sd_config::{ConfigFault, Settings};
use sd_outside::{Address, Failed, Source, read_full};
use std::alloc::Global;

/// How many bytes decide what a settings file says: one more than it may have.
const DECIDING: usize = 65_537;

/// Opens a settings file, and reads its deciding bytes to the start of a buffer, which has just room for them. Answers their
/// number.
///
/// # Errors
///
/// `OpenFault` and `ReadFault` where the file failed, and `OutOfMemory`.
fn read_deciding<R: Source>(source: &mut R, at: &Address, buf: &mut [u8]) -> Result<usize, Status>
    requires { HoldsDeciding buf.old }
    ensures within { IfOk result (λ n. n ≤ length buf.new) }
    ensures read { IfOk result (λ n. AreRead (place_of at.now) (take n buf.new) (R.seen source.old) (R.seen source.new)) }
    ensures refused { IfErr result (λ status. IsNotTaken (answer_of status) (place_of at.now) (R.seen source.old) (R.seen source.new)) }
{
    open(source, at, Part::Settings)?;
    match read_full(source, buf) {
        Ok(len) => Ok(len),
        Err(Failed) => Err(Status::ReadFault {
            part: Part::Settings,
        }),
    }
}

/// The values of a settings file with these bytes.
///
/// # Errors
///
/// `Config` where it isn't accepted, and `OutOfMemory`.
fn values_of(alloc: Global, bytes: &[u8]) -> Result<Settings, Status>
    ensures accepted { IfOk result (λ values. settings bytes.now ≡ Ok values) }
    ensures refused { IfErr result (λ status. IsRefused (answer_of status) bytes.now) }
{
    match Settings::read(alloc, bytes) {
        Ok(values) => Ok(values),
        Err(ConfigFault::OutOfMemory) => Err(Status::OutOfMemory),
        Err(fault) => Err(Status::Config(fault)),
    }
}

/// Opens a settings file, reads it through a buffer with just room for its deciding bytes, and answers its values. The log is told
/// why it isn't accepted.
///
/// # Errors
///
/// `OpenFault` and `ReadFault` where the file failed, `OutOfMemory`, and `Config` where it isn't accepted.
fn read_through<R: Source, L: Log>(
    alloc: Global,
    log: &L,
    source: &mut R,
    at: &Address,
    buf: &mut [u8],
) -> Result<Settings, Status>
    requires { HoldsDeciding buf.old }
    ensures accepted { IfOk result (λ values. IsAccepted values (place_of at.now) (R.seen source.old) (R.seen source.new)) }
    ensures refused { IfErr result (λ status. IsNotTaken (answer_of status) (place_of at.now) (R.seen source.old) (R.seen source.new)) }
{
    let len = read_deciding(source, at, buf)?;
    let values = values_of(alloc, &buf[..len]);
    tell_values(log, alloc, at, &buf[..len], &values);
    values
}

/// Opens and reads a settings file, and answers its values. The room for its bytes is taken before it is opened.
///
/// # Errors
///
/// `OpenFault` and `ReadFault` where the file failed, `OutOfMemory`, and `Config` where it isn't accepted.
pub fn read_settings<R: Source, L: Log>(
    alloc: Global,
    log: &L,
    source: &mut R,
    at: &Address,
) -> Result<Settings, Status>
    ensures accepted { IfOk result (λ values. IsAccepted values (place_of at.now) (R.seen source.old) (R.seen source.new)) }
    ensures refused { IfErr result (λ status. IsNotTaken (answer_of status) (place_of at.now) (R.seen source.old) (R.seen source.new)) }
{
    match vec![in alloc; 0u8; DECIDING] {
        Ok(mut room) => read_through(alloc, log, source, at, &mut room),
        Err(_) => Err(Status::OutOfMemory),
    }
}
