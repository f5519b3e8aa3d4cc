//! The files of a device, in the current folder. Each is opened, or made, at the first call on its area.
ghost use Rattle.std.specs.Prelude.{◌≤◌, ◌<◌, length, IfOk};

use crate::Area;
use crate::dir_shelf::read_at_once;
use std::fs::{File, Files, OpenFile, OpenOptions};
use std::io;
use std::io::ErrorKind;
use std::os::unix::fs::FileExt;

/// An open file on which a lock can be held until it is closed.
pub trait Lock {
    /// Takes the lock without waiting. It is a failure where another open of the file holds it.
    fn lock_at_once(&self) -> io::Result<()>;
}

impl Lock for File {
    fn lock_at_once(&self) -> io::Result<()> {
        match self.try_lock() {
            Ok(()) => Ok(()),
            Err(_) => Err(io::Error::from(ErrorKind::WouldBlock)),
        }
    }
}

/// The file of an area.
#[derive(Drop)]
struct AreaFile<F> {
    file: F,
    /// Whether the folder was synced in this run, so that the file's name outlives a power cut.
    is_named: bool,
}

/// The files by the places of their areas.
#[derive(Drop)]
pub(crate) struct AreaFiles<F> {
    files: [Option<AreaFile<F>>; 5],
}

/// The name of the area's file.
fn file_name(area: Area) -> &'static str {
    match area {
        Area::Mark => "mirror.mark",
        Area::Log => "mirror.log",
        Area::Root => "mirror.root",
        Area::Left => "mirror.left",
        Area::Right => "mirror.right",
    }
}

/// Opens a file for reading and writing, or makes it.
fn open_or_make<R: Files>(rt: &R, name: &str) -> io::Result<AreaFile<R::File>> {
    let file = OpenOptions::new()
        .read(true)
        .write(true)
        .create(true)
        .open(rt, name)?;
    Ok(AreaFile {
        file,
        is_named: false,
    })
}

/// Syncs the current folder, and with it the names of its files.
fn sync_folder<R: Files>(rt: &R) -> io::Result<()> {
    File::open(rt, ".")?.sync_all()
}

/// Reads until the buffer is full or the file ends, and answers how many bytes.
fn read_full<F: FileExt>(file: &F, at: u64, buf: &mut [u8]) -> io::Result<usize>
    ensures { IfOk result (λ n. n ≤ length buf.old) }
{
    let mut done = 0;
    while done < buf.len() {
        let n = read_at_once(file, &mut buf[done..], at.saturating_add(done as u64))?;
        if n == 0 {
            break;
        }
        done += n;
    }
    Ok(done)
}

impl<F: FileExt + OpenFile + Lock + Drop> AreaFiles<F> {
    pub(crate) fn new() -> Self {
        AreaFiles {
            files: [None, None, None, None, None],
        }
    }

    /// Opens the area's file where it isn't open. The mark's comes first and is locked, so that two programs never write
    /// one device.
    fn open<R: Files<File = F>>(&mut self, rt: &R, area: Area) -> io::Result<&AreaFile<F>> {
        if self.files[0].is_none() {
            let mark = open_or_make(rt, file_name(Area::Mark))?;
            mark.file.lock_at_once()?;
            self.files[0] = Some(mark);
        }
        let place = area.place();
        if self.files[place].is_none() {
            self.files[place] = Some(open_or_make(rt, file_name(area))?);
        }
        let opened = &*self;
        match &opened.files[place] {
            Some(file) => Ok(file),
            None => unreachable!(),
        }
    }

    pub(crate) fn len<R: Files<File = F>>(&mut self, rt: &R, area: Area) -> io::Result<u64> {
        Ok(self.open(rt, area)?.file.metadata()?.len())
    }

    pub(crate) fn read_at<R: Files<File = F>>(
        &mut self,
        rt: &R,
        area: Area,
        at: u64,
        buf: &mut [u8],
    ) -> io::Result<usize>
        ensures { IfOk result (λ n. n ≤ length buf.old) }
    {
        read_full(&self.open(rt, area)?.file, at, buf)
    }

    pub(crate) fn write_at<R: Files<File = F>>(
        &mut self,
        rt: &R,
        area: Area,
        at: u64,
        bytes: &[u8],
    ) -> io::Result<()> {
        self.open(rt, area)?.file.write_all_at(bytes, at)
    }

    /// Syncs the area's file, and in its first call for the area the folder too, whoever made the file.
    pub(crate) fn sync<R: Files<File = F>>(&mut self, rt: &R, area: Area) -> io::Result<()> {
        let opened = self.open(rt, area)?;
        opened.file.sync_data()?;
        if !opened.is_named {
            sync_folder(rt)?;
            if let Some(file) = &mut self.files[area.place()] {
                file.is_named = true;
            }
        }
        Ok(())
    }
}
