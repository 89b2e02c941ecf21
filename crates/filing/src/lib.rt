// Parts of the programs that keep a chip in a file: written in front, read to its end, replaced whole. Safe and ending; no contract can say what is read and
// written.
#![tactic(auto)]

ghost use Rattle.std.specs.Prelude.{◌≡◌, ◌≤◌, length, take, IfOk};

use std::env::{Env, FillError};
use std::fs::{OpenFile, OpenOptions};
use std::io::{ErrorKind, Read, Write};
use std::rt::Files;
use std::{fs, io};

// What cannot be written is lost.
pub fn say<P: Print>(to: &P, text: &[u8]) {
    let _ = to.write_all(text);
}

// How many words the command line has, the program's own name among them.
pub fn argument_count<E: Env>(env: &E) -> usize {
    for i in 0..usize::MAX {
        let mut none = [0u8; 1];
        if let Err(FillError::NotPresent) = env.arg(i, &mut none) {
            return i;
        }
    }
    usize::MAX
}

// The name as a path, which is text: one that is no UTF-8 is refused, as std refuses it.
fn path_of(name: &[u8]) -> io::Result<&str> {
    std::str::from_utf8(name).map_err(|_| io::Error::from(ErrorKind::InvalidFilename))
}

// The file of that name, to be read.
pub fn opened<R: Files>(files: &R, name: &[u8]) -> io::Result<R::File> {
    fs::open(files, path_of(name)?)
}

// The first n bytes, or all where there are fewer.
pub fn front_written<W: Write>(to: &mut W, bytes: &[u8], n: usize) -> bool {
    to.write_all(&bytes[..n.min(bytes.len())]).is_ok()
}

// Reads until the buffer is full or the file ends; how many bytes are in front of it then. A read gives any number of bytes, so no range has the steps.
pub fn read_full<R: Read>(from: &mut R, buffer: &mut [u8]) -> io::Result<usize>
    ensures { IfOk result (λ n. n ≤ length buffer.new) }
{
    let mut done = 0;
    while done < buffer.len() {
        let n = from.read(&mut buffer[done..])?;
        if n == 0 {
            break;
        }
        done += n;
    }
    Ok(done)
}

// Whether a file has no byte behind those that were read.
pub fn has_ended<R: Read>(from: &mut R) -> bool {
    let mut one = [0u8; 1];
    matches!(from.read(&mut one), Ok(0))
}

// The name with .part behind it, in front of the buffer; nothing where that is too long for a name.
fn part_name(name: &[u8], part: &mut [u8]) -> usize
    ensures within { result ≤ length part.new }
    ensures front { result ≡ length (take result part.new) }
{
    let n = name.len();
    if part.len() < 5 {
        return 0;
    }
    if part.len() - 5 < n {
        return 0;
    }
    part[..n].copy_from_slice(name);
    part[n..n + 5].copy_from_slice(b".part");
    n + 5
}

// Whether that name is taken, so that the file cannot be replaced.
pub fn has_part<R: Files>(files: &R, name: &[u8]) -> bool {
    let mut buffer = [0u8; 4096];
    let n = part_name(name, &mut buffer);
    opened(files, &buffer[..n]).is_ok()
}

// All bytes, and on the disk.
fn filled<F: Write + OpenFile>(file: &mut F, bytes: &[u8]) -> io::Result<()> {
    file.write_all(bytes)?;
    file.sync_all()
}

fn made<R: Files>(files: &R, part: &str, bytes: &[u8]) -> io::Result<()> {
    let mut file = OpenOptions::new()
        .write(true)
        .create_new(true)
        .open(files, part)?;
    let whole = filled(&mut file, bytes);
    drop(file);
    if whole.is_err() {
        let _ = fs::remove_file(files, part);
    }
    whole
}

fn renamed<R: Files>(files: &R, part: &str, name: &str) -> io::Result<()> {
    let taken = fs::rename(files, part, name);
    if taken.is_err() {
        let _ = fs::remove_file(files, part);
    }
    taken
}

// The bytes go into a new file beside the name, which takes the name when all of them are written: so the name has the old file or the whole new one.
// Where that fails, the error says why.
pub fn replace<R: Files>(files: &R, name: &[u8], bytes: &[u8]) -> io::Result<()> {
    let mut buffer = [0u8; 4096];
    let n = part_name(name, &mut buffer);
    let path = path_of(name)?;
    let part = path_of(&buffer[..n])?;
    made(files, part, bytes)?;
    renamed(files, part, path)
}
