// Files that a script saves, loads and compares: here they are read and written. What comes of them is said by crates posting and image_posts.
use posting::{Carried, Trouble};
use standing::{Playing, Post};
use std::io;
use std::io::Read;
use std::rt::Files;

// The system's numbers of the usual reasons, by C's names.
pub const ENOENT: i32 = 2;

pub const EACCES: i32 = 13;

const EEXIST: i32 = 17;

// ---- writing

// Why a file cannot be made.
fn unmade(e: io::Error) -> Trouble {
    match e.raw_os_error() {
        Some(ENOENT) => Trouble::Folderless,
        Some(EACCES) => Trouble::Forbidden,
        Some(EEXIST) => Trouble::Taken,
        _ => Trouble::Unwritten,
    }
}

// The name has the old file or the whole new one.
fn written(rt: &impl Files, name: &[u8], bytes: &[u8]) -> Option<Trouble> {
    filing::replace(rt, name, bytes).map_err(unmade).err()
}

// ---- reading

// Why a file cannot be opened.
fn unopened(e: io::Error) -> Trouble {
    match e.raw_os_error() {
        Some(ENOENT) => Trouble::Missing,
        Some(EACCES) => Trouble::Denied,
        _ => Trouble::Unopened,
    }
}

// As many bytes as there is room for.
fn read_from(from: &mut impl Read, file: &mut [u8]) -> Result<usize, Trouble> {
    let Ok(length) = filing::read_full(from, file) else {
        return Err(Trouble::Unread);
    };
    if length < file.len() {
        if !filing::has_ended(from) {
            return Err(Trouble::Unread);
        }
    }
    Ok(length)
}

fn read_into(rt: &impl Files, name: &[u8], file: &mut [u8; 2148375]) -> Result<usize, Trouble> {
    match filing::opened(rt, name) {
        Ok(mut from) => read_from(&mut from, file),
        Err(e) => Err(unopened(e)),
    }
}

// ---- the lines

// The buffers of the next two, and of `came_used`, come by reference: taken as slices where they are made, their length is counted out, and the check
// gives up.
fn image_of(p: Playing, array: &[u8], security: &[u8], file: &mut [u8; 2148374]) -> u8 {
    image_posts::save(p, array, security, file)
}

fn image_written(rt: &impl Files, name: &[u8], file: &[u8; 2148374]) -> Option<Trouble> {
    written(rt, name, file)
}

fn saved(rt: &impl Files, p: Playing, array: &[u8], security: &[u8], name: &[u8]) -> Carried {
    let mut file = [0u8; 2148374];
    let number = image_of(p, array, security, &mut file);
    if number != 0 {
        return posting::end(p, None, number, 0);
    }
    let t = image_written(rt, name, &file);
    posting::end(p, t, 0, 2148374)
}

fn raw_saved(rt: &impl Files, p: Playing, array: &[u8], name: &[u8]) -> Carried {
    let number = posting::raw_number(p, array);
    if number != 0 {
        return posting::end(p, None, number, 0);
    }
    let n = array.len().min(2097152);
    let t = written(rt, name, &array[..n]);
    posting::end(p, t, 0, n)
}

fn used(
    p: Playing,
    f: Post,
    array: &mut [u8],
    security: &mut [u8],
    file: &[u8],
    length: usize,
) -> Carried {
    let came = &file[..length.min(file.len())];
    match f {
        Post::Save | Post::SaveRaw => posting::nothing(p),
        Post::Load => image_posts::load(p, array, security, came),
        Post::LoadRaw => posting::load_raw(p, array, came),
        Post::CompareRaw => posting::compare_raw(p, array, came),
    }
}

fn came_used(
    p: Playing,
    f: Post,
    array: &mut [u8],
    security: &mut [u8],
    file: &[u8; 2148375],
    length: usize,
) -> Carried {
    used(p, f, array, security, file, length)
}

// One byte more than an image has, so that a longer file shows.
fn taken(
    rt: &impl Files,
    p: Playing,
    f: Post,
    array: &mut [u8],
    security: &mut [u8],
    name: &[u8],
) -> Carried {
    let mut file = [0u8; 2148375];
    match read_into(rt, name, &mut file) {
        Ok(length) => came_used(p, f, array, security, &file, length),
        Err(t) => posting::end(p, Some(t), 0, 0),
    }
}

fn posted(
    rt: &impl Files,
    p: Playing,
    f: Post,
    array: &mut [u8],
    security: &mut [u8],
    name: &[u8],
) -> Carried {
    match f {
        Post::Save => saved(rt, p, array, security, name),
        Post::SaveRaw => raw_saved(rt, p, array, name),
        Post::Load | Post::LoadRaw | Post::CompareRaw => taken(rt, p, f, array, security, name),
    }
}

// What becomes of the bench where the line that ended has a file; its name is what the line stored.
pub fn carried(
    rt: &impl Files,
    p: Playing,
    array: &mut [u8],
    security: &mut [u8],
    frame: &[u8],
) -> Carried {
    let n = p.reading.sent.min(frame.len());
    match posting::asked(p) {
        None => posting::nothing(p),
        Some(f) => posted(rt, p, f, array, security, &frame[..n]),
    }
}
