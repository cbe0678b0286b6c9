//! The files of a capture: whole blocks, written out each second, files of a size, one after the other and round.
use crate::serving::Running;
use service_files::CaptureTable;
use std::alloc::{AllocError, Global};
use std::fmt::Write as _;
use std::fs::{self, File, OpenFile};
use std::io::{self, Write};
use std::path::{Path, PathBuf};

/// How many octets a MiB has.
const MEBI: u64 = 1_048_576;

/// The file that a capture is written to.
#[derive(Drop)]
pub(crate) struct Captures {
    /// Where the first file lies.
    name: PathBuf,
    /// How many files there are.
    files: u16,
    /// Which one is written, from 0.
    number: u16,
    file: File,
    /// How many octets of whole blocks the file has.
    written: u64,
    /// When what waits was written last, in seconds.
    second: u64,
}

impl Captures {
    /// Begins a capture: its files lie beside the service file of this name, and the next one is begun.
    pub(crate) fn open(
        rt: &HostRuntime,
        service: &mut Running,
        beside: Path<'_>,
        table: &CaptureTable<'_>,
    ) -> io::Result<Self> {
        let alloc = rt.alloc();
        let name = beside.with_file_name(alloc, table.file)?;
        let number = next_number(rt, name.as_path(), table.files)?;
        let file = create(rt, name.as_path(), number)?;
        service.capture(alloc, u64::from(table.size).saturating_mul(MEBI))?;
        Ok(Captures {
            name,
            files: table.files,
            number,
            file,
            written: 0,
            second: 0,
        })
    }

    /// Writes what waits, and begins the next file once one is full. An error is the system's, and stops the capture: the file
    /// ends with a whole block.
    pub(crate) fn write(
        &mut self,
        rt: &HostRuntime,
        service: &mut Running,
        second: u64,
    ) -> io::Result<()> {
        if second == self.second && service.captured().is_empty() {
            return Ok(());
        }
        self.second = second;
        let outcome = self.write_all(rt, service);
        if outcome.is_err() {
            let _ = self.file.set_len(self.written);
            service.stop_capture();
        }
        outcome
    }

    /// Writes what waits, as the service ends. The file ends with a whole block.
    pub(crate) fn finish(&mut self, service: &mut Running) {
        if write_waiting(&mut self.file, service).is_err() {
            let _ = self.file.set_len(self.written);
        }
    }

    fn write_all(&mut self, rt: &HostRuntime, service: &mut Running) -> io::Result<()> {
        let count = write_waiting(&mut self.file, service)?;
        self.written = self.written.saturating_add(count);
        if service.capture_is_full() {
            self.number = following(self.number, self.files);
            self.file = create(rt, self.name.as_path(), self.number)?;
            self.written = 0;
            service.begin_captured();
        }
        Ok(())
    }
}

/// Writes all that waits to a file, and gives how many octets it was.
fn write_waiting(file: &mut File, service: &mut Running) -> io::Result<u64> {
    let mut written: u64 = 0;
    for _ in 0..u64::MAX {
        if service.captured().is_empty() {
            break;
        }
        let count = file.write(service.captured())?;
        if count == 0 {
            return Err(io::Error::from(io::ErrorKind::WriteZero));
        }
        service.captured_written(count);
        written = written.saturating_add(count as u64);
    }
    Ok(written)
}

/// The number of the file after one of these, round.
fn following(number: u16, files: u16) -> u16 {
    let next = number.saturating_add(1);
    if next < files { next } else { 0 }
}

/// The number of the file to begin with: the first one that is not there, else that of the oldest.
fn next_number(rt: &HostRuntime, name: Path<'_>, files: u16) -> io::Result<u16> {
    let mut oldest = None;
    let mut number = 0;
    for place in 0..files {
        let path = numbered(rt.alloc(), name, place)?;
        if !path.exists(rt) {
            return Ok(place);
        }
        let changed = fs::metadata(rt, path.as_path())?.modified()?;
        if oldest.is_none_or(|oldest| changed < oldest) {
            oldest = Some(changed);
            number = place;
        }
    }
    Ok(number)
}

/// Makes the file of a number anew.
fn create(rt: &HostRuntime, name: Path<'_>, number: u16) -> io::Result<File> {
    File::create(rt, numbered(rt.alloc(), name, number)?.as_path())
}

/// The name of the file of a number: `x25.pcapng`, `x25.1.pcapng` and so on.
fn numbered(alloc: Global, name: Path<'_>, number: u16) -> Result<PathBuf, AllocError> {
    if number == 0 {
        return name.to_path_buf(alloc);
    }
    let mut text = String::from_str(alloc, name.file_stem().unwrap_or(""))?;
    write!(text, ".{number}")?;
    if let Some(extension) = name.extension() {
        write!(text, ".{extension}")?;
    }
    name.with_file_name(alloc, text.as_str())
}
