// A sheet's file: read whole, and replaced by a longer sheet or left as it was.
ghost use Rattle.std.specs.Prelude.{◌≡◌, ◌≤◌, length, IfSome};

use crate::say;
use input::Input;
use record::RECORD_BYTES;
use records::MOST_RECORDS;
use std::fs::{File, OpenFile, OpenOptions};
use std::io::{ErrorKind, Write};
use std::rt::Files;
use std::{fs, io};

// The longest sheet, and one byte more: what fills it is too long.
pub const SHEET_ROOM: usize = MOST_RECORDS * RECORD_BYTES + 1;

// Room for it: the number is promised here, so that another one in the constant is refused.
pub(crate) fn room() -> [u8; SHEET_ROOM]
    ensures { 65535 ≡ length result }
{
    input::room()
}

// The names of a sheet's file and of the new one beside it.
#[derive(Clone, Copy)]
pub(crate) struct Names<'a> {
    pub sheet: &'a [u8],
    pub new: &'a [u8],
}

// A name as the system is asked for it. One that is not UTF-8 cannot be asked for.
fn path_of(name: &[u8]) -> io::Result<&str> {
    str::from_utf8(name).map_err(|_| io::Error::new(
        ErrorKind::InvalidFilename,
        "The name is not UTF-8",
    ))
}

fn open<R: Files>(rt: &R, name: &[u8]) -> io::Result<R::File> {
    File::open(rt, path_of(name)?)
}

// Makes a file that is not there yet.
fn open_new<R: Files>(rt: &R, name: &[u8]) -> io::Result<R::File> {
    let path = path_of(name)?;
    OpenOptions::new()
        .write(true)
        .create_new(true)
        .open(rt, path)
}

fn rename(rt: &impl Files, from: &[u8], to: &[u8]) -> io::Result<()> {
    fs::rename(rt, path_of(from)?, path_of(to)?)
}

fn unlink(rt: &impl Files, name: &[u8]) -> io::Result<()> {
    fs::remove_file(rt, path_of(name)?)
}

// Reads the file: how many bytes of the buffer it fills, all of them if it is longer. Where it cannot be
// read, that is said.
#[tactic(auto, using(input::proofs::RoomLaws::whole_within))]
pub(crate) fn read(rt: &(impl Files + Eprint), name: &[u8], sheet: &mut [u8]) -> Option<usize>
    ensures { IfSome result (λ used. used ≤ length sheet.new) }
{
    let mut file = match open(rt, name) {
        Ok(file) => file,
        Err(why) => {
            say::fail(rt, "sheet: the file could not be opened", why);
            return None;
        }
    };
    match input::read(&mut file, sheet) {
        Ok(Input::Whole(used)) => Some(used),
        Ok(Input::Longer) => Some(sheet.len()),
        Err(why) => {
            say::fail(rt, "sheet: the file could not be read", why);
            None
        }
    }
}

// Makes the new file, or says why not. Where it is there already, no other is made.
pub(crate) fn create<R: Files + Eprint>(rt: &R, names: Names) -> Option<R::File> {
    match open_new(rt, names.new) {
        Ok(file) => Some(file),
        Err(why) => {
            if why.kind() == ErrorKind::AlreadyExists {
                say::left_over(rt);
            } else {
                say::fail(rt, "sheet: FILE.new could not be made", why);
            }
            None
        }
    }
}

fn remove(rt: &(impl Files + Eprint), names: Names) {
    if let Err(why) = unlink(rt, names.new) {
        say::fail(rt, "sheet: FILE.new could not be removed", why);
    }
}

// The old file stays.
pub(crate) fn discard<R: Files + Eprint>(rt: &R, file: R::File, names: Names) {
    drop(file);
    remove(rt, names);
}

// Says why the new file is given up.
fn give_up<R: Files + Eprint>(rt: &R, file: R::File, names: Names, what: &str, why: io::Error) {
    say::fail(rt, what, why);
    discard(rt, file, names);
}

// The name of the folder that a file is in: up to its last slash, and `.` where there is none.
fn folder_of(name: &[u8]) -> &[u8] {
    match name.iter().rposition(|&b| b == b'/') {
        Some(slash) => &name[..=slash],
        None => b".",
    }
}

// The new name is on disk once its folder is flushed.
fn flush_folder(rt: &(impl Files + Eprint), names: Names) {
    match open(rt, folder_of(names.sheet)) {
        Ok(folder) => {
            if let Err(why) = folder.sync_all() {
                say::fail(
                    rt,
                    "sheet: the record is added, but the folder could not be flushed to disk",
                    why,
                );
            }
        }
        Err(why) => say::fail(
            rt,
            "sheet: the record is added, but the folder could not be opened to flush it",
            why,
        ),
    }
}

// Writes the new sheet, flushes it to disk and gives it the old one's name. Where one of these fails, the
// old file stays and the new one is removed, and what failed has been said: whether it is kept is all that is answered.
pub(crate) fn keep<R: Files + Eprint>(
    rt: &R,
    mut file: R::File,
    names: Names,
    sheet: &[u8],
) -> bool {
    if let Err(why) = file.write_all(sheet) {
        give_up(rt, file, names, "sheet: FILE.new could not be written", why);
        return false;
    }
    if let Err(why) = file.sync_all() {
        give_up(
            rt,
            file,
            names,
            "sheet: FILE.new could not be flushed to disk",
            why,
        );
        return false;
    }
    // What closing it answers cannot be asked: after the flush there is nothing left to write that could fail.
    drop(file);
    if let Err(why) = rename(rt, names.new, names.sheet) {
        say::fail(rt, "sheet: FILE.new could not be given the name FILE", why);
        remove(rt, names);
        return false;
    }
    flush_folder(rt, names);
    true
}
