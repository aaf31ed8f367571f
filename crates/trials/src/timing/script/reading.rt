//! Two ways to read a script, and their times.

use anyhow::{Result, bail};
use bucket_ranges::limits::MAX_UNITS;
use csv::{ByteRecord, ReaderBuilder};
use persist_report_core::{Script, read_script};
use segment_image::Watched;
use std::alloc::Global;
use std::rt::Clock;
use std::time::Instant;

// How many records the bytes have: all of them, read into one record by the CSV reader alone.
fn count_records(alloc: Global, bytes: &[u8]) -> Result<u64> {
    let mut reader = ReaderBuilder::new()
        .has_headers(false)
        .flexible(true)
        .from_reader(alloc, bytes);
    let mut fields = ByteRecord::new(alloc);
    let mut count: u64 = 0;
    for _ in 0..u64::MAX {
        match reader.read_byte_record(&mut fields) {
            Ok(true) => count = count.saturating_add(1),
            Ok(false) => break,
            Err(_) => bail!("there is no memory"),
        }
    }
    Ok(count)
}

fn read(alloc: Global, bytes: &[u8]) -> Result<Script> {
    match read_script(alloc, &mut Watched::new(bytes), MAX_UNITS) {
        Ok(script) => Ok(script),
        Err(fault) => bail!("{fault}"),
    }
}

// Prints what the script has.
pub(crate) fn show_contents(rt: &(impl Print + AllocGlobal), bytes: &[u8]) -> Result<()> {
    let records = count_records(rt.alloc(), bytes)?;
    let script = read(rt.alloc(), bytes)?;
    let len = bytes.len();
    let hists = script.hists.len();
    let calls = script.calls.len();
    println!(rt; "{len} bytes, {records} records, {hists} hist, {calls} add")?;
    Ok(())
}

// Prints for each turn the times of the CSV reader alone and of the script, in microseconds.
pub(crate) fn show_times(
    rt: &(impl Clock + Print + AllocGlobal),
    bytes: &[u8],
    turns: u32,
) -> Result<()> {
    for _ in 0..turns {
        let start = Instant::now(rt)?;
        let _records = count_records(rt.alloc(), bytes)?;
        let alone = start.elapsed(rt)?.as_micros();
        let start = Instant::now(rt)?;
        let _script = read(rt.alloc(), bytes)?;
        let whole = start.elapsed(rt)?.as_micros();
        println!(rt; "{alone} csv, {whole} script")?;
    }
    Ok(())
}
