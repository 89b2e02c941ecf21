// Writing a whole idle chip as a file. Document 02, W-203: crate image, specs/Form and specs/Promises.
#![tactic(auto)]

ghost use Rattle.std.specs.Prelude.{◌≡◌, ◌++◌, ◌+◌, ◌*◌, ◌≤◌, ◌<◌, length, take};
ghost use Rattle.std.proofs.Math.Seq.{paste};
ghost use Rattle.rules.specs.Blocks.{array_size_lem, security_size_lem};
ghost use Rattle.rules.specs.Fields.{chip_of};
ghost use Rattle.image.specs.Form.{high_first, record_of, registers, page_record, joined, file_of, file_size_lem};
ghost use Rattle.image.specs.Files.{security_place, page_place};
ghost use Rattle.image.specs.Promises.{idle, WritePromise};

use image::FileRefusal;
use image_records::{put_two, seal, sizes_right};
use rules::{Chip, Rest};

// A register in six bytes, high byte first.
fn put_six(file: &mut [u8], at: usize, x: u64)
    requires { at + 6 ≤ length file.old }
    ensures { file.new ≡ paste file.old at (high_first 6 x) 6 }
{
    put_two(file, at, x / 0x1_0000_0000);
    put_two(file, at + 2, x / 0x1_0000);
    put_two(file, at + 4, x);
}

// Of two bytes that are kept as numbers, the one in front counts 256.
fn paired(high: u64, low: u64) -> u64
    requires { (high < 256) × (low < 256) }
    ensures { result ≡ high * 256 + low }
{
    high * 256 + low
}

// RG: protection, permanent, flags, burst code.
fn put_registers(file: &mut [u8], r: Rest)
    requires { 18 ≤ length file.old }
    ensures { file.new ≡ paste file.old 0 (record_of "RG" (registers r)) 18 }
{
    let burst = r.burst;
    let flags = numbering::flags_number(r.flags);
    let code = numbering::burst_byte(burst);
    put_six(file, 2, r.locks.protection);
    put_six(file, 8, r.locks.permanent);
    put_two(file, 14, paired(flags, code));
    seal(file, 0, 14, 0x5247);
}

// SI.
fn put_security(file: &mut [u8], security: &[u8])
    requires { (2070 ≤ length file.old) × (length security.now ≡ security_size_lem) }
    ensures { file.new ≡ paste file.old security_place (record_of "SI" security.now) 2052 }
{
    memory::copy(file, 20, 2048, security, 0);
    seal(file, 18, 2048, 0x5349);
}

// PG of page n: they count from 0.
fn put_page(file: &mut [u8], array: &[u8], n: usize)
    requires { (n < 8192) × ((length file.old ≡ file_size_lem) × (length array.now ≡ array_size_lem)) }
    ensures { file.new ≡ paste file.old (page_place n) (page_record array.now n) 262 }
{
    let at = 2070 + n * 262;
    put_two(file, at + 2, n as u64);
    memory::copy(file, at + 4, 256, array, n * 256);
    seal(file, at, 258, 0x5047);
}

// All of them, behind what stands there.
fn put_pages(file: &mut [u8], array: &[u8])
    requires { (length file.old ≡ file_size_lem) × (length array.now ≡ array_size_lem) }
    ensures { file.new ≡ take 2070 file.old ++ joined (page_record array.now) 8192 }
{
    for n in 0..8192 {
        put_page(file, array, n);
    }
}

// The file of an idle record and its memories.
pub fn put_file(file: &mut [u8], r: Rest, array: &[u8], security: &[u8])
    requires { (length file.old ≡ file_size_lem) × ((length array.now ≡ array_size_lem) × (length security.now ≡ security_size_lem)) }
    ensures { file.new ≡ record_of "RG" (registers r) ++ record_of "SI" security.now ++ joined (page_record array.now) 8192 }
{
    put_registers(file, r);
    put_security(file, security);
    put_pages(file, array);
}

// Nothing runs and nothing is suspended.
fn is_idle(r: Rest) -> bool
    ensures { result ≡ idle r }
{
    let works = r.works;
    let run = works.running;
    let aside = works.suspended;
    blocks::is_nothing(run) & blocks::is_nothing(aside)
}

// The file of a chip, into a lent buffer.
pub fn write(c: Chip, array: &[u8], security: &[u8], file: &mut [u8]) -> Result<(), FileRefusal>
    ensures { WritePromise c array.now security.now file.old result file.new }
{
    let rest = c.rest;
    let page = c.buffer;
    if !sizes_right(array.len(), security.len(), file.len()) {
        return Err(FileRefusal::Malformed);
    }
    if !records::well_formed(rest, &page) {
        return Err(FileRefusal::Malformed);
    }
    if !is_idle(rest) {
        return Err(FileRefusal::AtWork);
    }
    put_file(file, rest, array, security);
    Ok(())
}
