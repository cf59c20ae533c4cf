use crate::checksum::Checksum;
use crate::config::Config;
use anyhow::Result;
use std::rt::Clock;
use std::time::Instant;

/// A workload that runs: its name, and when it began.
#[derive(Clone, Copy)]
pub struct Figure<'a> {
    name: &'a str,
    rows: u64,
    start: Instant,
}

impl<'a> Figure<'a> {
    pub fn start(rt: &impl Clock, config: &Config, name: &'a str) -> Result<Figure<'a>> {
        Ok(Figure {
            name,
            rows: config.rows,
            start: Instant::now(rt)?,
        })
    }

    /// Prints the checksum, and the nanoseconds for one of so many operations.
    pub fn tell(
        &self,
        rt: &(impl Clock + Print + Eprint),
        operations: u64,
        sum: Checksum,
    ) -> Result<()> {
        let nanos = self.nanos(rt, operations)?;
        self.tell_sum(rt, sum)?;
        self.tell_nanos(rt, operations, nanos)
    }

    /// Prints so many nanoseconds for one of so many operations.
    pub fn tell_nanos(&self, rt: &impl Eprint, operations: u64, nanos: u128) -> Result<()> {
        let (name, rows) = (self.name, self.rows);
        eprintln!(rt;
            "{{\"engine\":\"ravundi\",\"name\":\"{name}\",\"rows\":{rows},\"operations\":{operations},\"ns\":{nanos}}}"
        )?;
        Ok(())
    }

    /// The same, with the bytes of memory for one of the rows.
    pub fn tell_bytes(&self, rt: &HostRuntime, bytes: u64, sum: Checksum) -> Result<()> {
        let nanos = self.nanos(rt, self.rows)?;
        self.tell_sum(rt, sum)?;
        let (name, rows) = (self.name, self.rows);
        let each = bytes.checked_div(rows).unwrap_or(0);
        eprintln!(rt;
            "{{\"engine\":\"ravundi\",\"name\":\"{name}\",\"rows\":{rows},\"operations\":{rows},\"ns\":{nanos},\"bytes_a_row\":{each}}}"
        )?;
        Ok(())
    }

    /// Prints how many of so many bytes of memory there are for one of the rows, each of which has
    /// so many bytes of data.
    pub fn tell_part(&self, rt: &impl Eprint, data: u64, bytes: u64) -> Result<()> {
        let (name, rows) = (self.name, self.rows);
        let each = bytes.checked_div(rows).unwrap_or(0);
        eprintln!(rt;
            "{{\"engine\":\"ravundi\",\"name\":\"{name}\",\"rows\":{rows},\"data\":{data},\"bytes_a_row\":{each}}}"
        )?;
        Ok(())
    }

    /// Prints how much memory there is after so many operations, and by how many parts of a
    /// thousand that is more than it was first.
    pub fn tell_memory(
        &self,
        rt: &impl Eprint,
        operations: u64,
        bytes: u64,
        first: u64,
    ) -> Result<()> {
        let (name, rows) = (self.name, self.rows);
        let more = bytes.saturating_sub(first).saturating_mul(1_000);
        let more = more.checked_div(first).unwrap_or(0);
        eprintln!(rt;
            "{{\"engine\":\"ravundi\",\"name\":\"{name}\",\"rows\":{rows},\"operations\":{operations},\"bytes\":{bytes},\"grown_by_thousandths\":{more}}}"
        )?;
        Ok(())
    }

    /// Prints a number of the run by its own name.
    pub fn tell_number(&self, rt: &impl Eprint, what: &str, number: u128) -> Result<()> {
        let (name, rows) = (self.name, self.rows);
        eprintln!(rt;
            "{{\"engine\":\"ravundi\",\"name\":\"{name}\",\"rows\":{rows},\"{what}\":{number}}}"
        )?;
        Ok(())
    }

    /// How many nanoseconds one of so many operations has taken.
    pub fn nanos(&self, rt: &impl Clock, operations: u64) -> Result<u128> {
        let nanos = self.start.elapsed(rt)?.as_nanos();
        Ok(nanos.checked_div(u128::from(operations)).unwrap_or(0))
    }

    /// Prints the checksum.
    pub fn tell_sum(&self, rt: &impl Print, sum: Checksum) -> Result<()> {
        let (name, rows, sum) = (self.name, self.rows, sum.0);
        println!(rt; "{name} {rows}: {sum}")?;
        Ok(())
    }
}
