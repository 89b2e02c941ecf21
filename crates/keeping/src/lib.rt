// The chip in a file: read before a session, and saved behind it; a part of the program `programmer`. What a file means is said by crates image_reading,
// image_writing and raw_image. Safe and ending.
#![tactic(auto)]

mod telling;

ghost use Rattle.std.specs.Prelude.{◌≡◌, IfOk, unwrap_or};
ghost use Rattle.rules.specs.Commands.{new_of};

use image::FileRefusal;
use rules::Chip;
use std::fs::File;
use std::io;
use std::io::ErrorKind;
use telling::{broken, refused};
pub use telling::{part_told, say, told};

// A file that cannot be read, is refused or could not be saved. Why was told.
#[derive(Clone, Copy)]
pub struct Failure;

// The chip of a session: the one in the file, or a new one of the part that is asked for.
pub fn chip_of(kept: Option<Chip>, ba: bool) -> Chip
    ensures { result ≡ unwrap_or kept (new_of ba) }
{
    kept.unwrap_or(chip::new_of(ba))
}

// ---- reading

fn image_taken(
    rt: &HostRuntime,
    name: &[u8],
    file: &[u8],
    array: &mut [u8; 2097152],
    security: &mut [u8; 2048],
) -> Result<Option<Chip>, Failure> {
    let r = image_reading::read(chip::new(), file, array, security);
    match r.answer {
        Ok(()) => Ok(Some(r.chip)),
        Err(FileRefusal::AtWork) => Err(Failure),
        Err(FileRefusal::Malformed) => {
            let why = fault_rows::length(false, file.len());
            Err(refused(rt, name, 1, why))
        }
        Err(FileRefusal::WrongFile) => {
            let why = fault_rows::fault(image_reading::fault(file));
            Err(refused(rt, name, 15, why))
        }
    }
}

// A new chip with this array.
fn raw_taken(
    rt: &HostRuntime,
    name: &[u8],
    file: &[u8],
    array: &mut [u8; 2097152],
) -> Result<Option<Chip>, Failure>
    ensures { IfOk result (λ kept. kept ≡ None) }
{
    if raw_image::load(array, file).is_ok() {
        return Ok(None);
    }
    Err(refused(rt, name, 1, fault_rows::length(true, file.len())))
}

// As many bytes as there is room for.
fn taken_from(
    rt: &HostRuntime,
    from: &mut File,
    raw: bool,
    name: &[u8],
    file: &mut [u8],
    array: &mut [u8; 2097152],
    security: &mut [u8; 2048],
) -> Result<Option<Chip>, Failure> {
    let n = filing::read_full(from, file).map_err(|e| broken(rt, name, e))?;
    if n < file.len() {
        if !filing::has_ended(from) {
            return Err(broken(rt, name, io::Error::from(ErrorKind::UnexpectedEof)));
        }
    }
    if raw {
        return raw_taken(rt, name, &file[..n], array);
    }
    image_taken(rt, name, &file[..n], array, security)
}

// The buffer comes by reference: taken as a slice where it is made, its length is counted out, and the check gives up.
fn taken_by(
    rt: &HostRuntime,
    from: &mut File,
    raw: bool,
    name: &[u8],
    file: &mut [u8; 2148375],
    array: &mut [u8; 2097152],
    security: &mut [u8; 2048],
) -> Result<Option<Chip>, Failure> {
    taken_from(rt, from, raw, name, file, array, security)
}

// One byte more than an image has, so that a longer file shows.
fn taken(
    rt: &HostRuntime,
    from: &mut File,
    raw: bool,
    name: &[u8],
    array: &mut [u8; 2097152],
    security: &mut [u8; 2048],
) -> Result<Option<Chip>, Failure> {
    let mut file = [0u8; 2148375];
    taken_by(rt, from, raw, name, &mut file, array, security)
}

// A file that is not there is a new chip.
fn unopened(rt: &HostRuntime, name: &[u8], e: io::Error) -> Result<Option<Chip>, Failure>
    ensures { IfOk result (λ kept. kept ≡ None) }
{
    if e.kind() == ErrorKind::NotFound {
        told(rt, name, b" is not there: a new chip, which is saved to it");
        return Ok(None);
    }
    Err(broken(rt, name, e))
}

fn load_named(
    rt: &HostRuntime,
    raw: bool,
    name: &[u8],
    array: &mut [u8; 2097152],
    security: &mut [u8; 2048],
) -> Result<Option<Chip>, Failure> {
    match filing::opened(rt, name) {
        Ok(mut from) => taken(rt, &mut from, raw, name, array, security),
        Err(e) => unopened(rt, name, e),
    }
}

// The chip of a file, where it has a name; where it cannot be read, is refused or could not be saved, that is told.
pub fn load(
    rt: &HostRuntime,
    raw: bool,
    name: &[u8],
    array: &mut [u8; 2097152],
    security: &mut [u8; 2048],
) -> Result<Option<Chip>, Failure> {
    if name.is_empty() {
        return Ok(None);
    }
    if filing::has_part(rt, name) {
        told(
            rt,
            name,
            b".part is there: another session saves, or one was killed while it saved; remove it. Nothing is served",
        );
        return Err(Failure);
    }
    load_named(rt, raw, name, array, security)
}

// ---- writing

fn saved(rt: &HostRuntime, name: &[u8], bytes: &[u8]) -> Result<(), Failure> {
    filing::replace(rt, name, bytes).map_err(|e| {
        let failure = broken(rt, name, e);
        told(rt, name, b" is not saved, and stays as it was");
        failure
    })
}

// The buffer as in `taken_by`.
fn image_saved_by(
    rt: &HostRuntime,
    name: &[u8],
    c: Chip,
    array: &[u8; 2097152],
    security: &[u8; 2048],
    file: &mut [u8; 2148374],
) -> Result<(), Failure> {
    match image_writing::write(c, array, security, file) {
        Ok(()) => saved(rt, name, file),
        Err(FileRefusal::AtWork) => {
            told(
                rt,
                name,
                b" is not saved, refused 14, and stays as it was: an operation is suspended; resume it with 30, and let it end",
            );
            Err(Failure)
        }
        Err(FileRefusal::Malformed) => {
            told(
                rt,
                name,
                b" is not saved, refused 1, and stays as it was: the record is broken",
            );
            Err(Failure)
        }
        Err(FileRefusal::WrongFile) => Err(Failure),
    }
}

fn image_saved(
    rt: &HostRuntime,
    name: &[u8],
    c: Chip,
    array: &[u8; 2097152],
    security: &[u8; 2048],
) -> Result<(), Failure> {
    let mut file = [0u8; 2148374];
    image_saved_by(rt, name, c, array, security, &mut file)
}

// The chip into its file, where it has a name; where that fails, that is told.
pub fn save(
    rt: &HostRuntime,
    raw: bool,
    name: &[u8],
    c: Chip,
    array: &[u8; 2097152],
    security: &[u8; 2048],
) -> Result<(), Failure> {
    if name.is_empty() {
        return Ok(());
    }
    if raw {
        return saved(rt, name, array);
    }
    image_saved(rt, name, c, array, security)
}
