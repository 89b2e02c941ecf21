// Reading the chip in a file: all is tested before the first byte is stored. Document 02, W-203: crate image, specs/Files, specs/Faults and specs/Promises.
#![tactic(auto)]

mod faults;

ghost use Rattle.std.specs.Prelude.{◌≡◌, length};
ghost use Rattle.rules.specs.Blocks.{array_size_lem, security_size_lem};
ghost use Rattle.image.specs.Form.{file_size_lem};
ghost use Rattle.image.specs.Files.{rest_in, array_in, security_in};
ghost use Rattle.image.specs.Promises.{ReadPromise};

pub use faults::fault;
use faults::locks_in;
use image::{FileRefusal, Received};
use image_records::sizes_right;
use rules::{Chip, Rest, Work, Works};

// The pages, one after the other.
fn fill_array(file: &[u8], array: &mut [u8])
    requires { (length file.now ≡ file_size_lem) × (length array.old ≡ array_size_lem) }
    ensures { array.new ≡ array_in file.now }
{
    for n in 0..8192 {
        memory::copy(array, n * 256, 256, file, 2070 + n * 262 + 4);
    }
}

fn fill_security(file: &[u8], security: &mut [u8])
    requires { (length file.now ≡ file_size_lem) × (length security.old ≡ security_size_lem) }
    ensures { security.new ≡ security_in file.now }
{
    memory::copy(security, 0, 2048, file, 20);
}

// Idle, nothing suspended; the flags as in the file.
#[tactic(auto, unfolding(image::specs::Files::rest_in))]
fn rest_in(file: &[u8]) -> Rest
    requires { length file.now ≡ file_size_lem }
    ensures { result ≡ rest_in file.now }
{
    let locks = locks_in(file);
    let flags = numbering::flags_of(file[14]);
    let burst = numbering::burst_of(u64::from(file[15]));
    Rest {
        locks,
        works: Works {
            running: Work::Nothing,
            suspended: Work::Nothing,
        },
        flags,
        burst,
    }
}

// The chip in a file, into lent memories and in place of a record, which is not judged.
pub fn read(c: Chip, file: &[u8], array: &mut [u8], security: &mut [u8]) -> Received
    ensures { ReadPromise c file.now array.old security.old result array.new security.new }
{
    if !sizes_right(array.len(), security.len(), file.len()) {
        return Received {
            answer: Err(FileRefusal::Malformed),
            chip: c,
        };
    }
    if fault(file).is_some() {
        return Received {
            answer: Err(FileRefusal::WrongFile),
            chip: c,
        };
    }
    fill_array(file, array);
    fill_security(file, security);
    let rest = rest_in(file);
    let chip = Chip {
        buffer: [255; 256],
        rest,
    };
    Received {
        answer: Ok(()),
        chip,
    }
}
