// The array alone as a file, as flashrom and QEMU have it: 2,097,152 bytes. specs/Raw.antt.
#![tactic(auto)]

ghost use Rattle.std.specs.Prelude.{◌≡◌, ◌<◌, IfSome};
ghost use Rattle.raw_image.specs.Raw.{raw_answer, differs_at, compare_raw, LoadPromise};

use image::FileRefusal;

// How many bytes differ, and the first of them: its place, the file's byte and the array's.
#[derive(Clone, Copy)]
pub struct Difference {
    pub count: usize,
    pub place: usize,
    pub file: u8,
    pub array: u8,
}

// An array or a file that is not of the array's size is refused.
#[tactic(auto, unfolding(crate::specs::Raw::whole, crate::specs::Raw::raw_answer))]
pub fn sized(array: usize, file: usize) -> Result<(), FileRefusal>
    ensures { result ≡ raw_answer array file }
{
    if (array == 2097152) & (file == 2097152) {
        Ok(())
    } else {
        Err(FileRefusal::Malformed)
    }
}

// The array becomes the file.
pub fn load(array: &mut [u8], file: &[u8]) -> Result<(), FileRefusal>
    ensures { LoadPromise array.old file.now result array.new }
{
    sized(array.len(), file.len())?;
    array.copy_from_slice(file);
    Ok(())
}

// With the bytes at one place more.
#[tactic(auto, unfolding(crate::specs::Raw::differs_at))]
fn with_place(d: Option<Difference>, i: usize, file: u8, array: u8) -> Option<Difference>
    requires { IfSome d (λ x. x.count < 2097152) }
    ensures { result ≡ differs_at i file array d }
{
    if file == array {
        return d;
    }
    match d {
        None => Some(Difference {
            count: 1,
            place: i,
            file,
            array,
        }),
        Some(d) => Some(Difference {
            count: d.count + 1,
            ..d
        }),
    }
}

// In what a file and the array differ, byte by byte; of other sizes nothing is compared.
pub fn compare(array: &[u8], file: &[u8]) -> Option<Difference>
    ensures { result ≡ compare_raw array.now file.now }
{
    if sized(array.len(), file.len()).is_err() {
        return None;
    }
    let mut d = None;
    // No zip with the array: such a loop has no index, and its invariant, said of the items so far, did not prove.
    for (i, f) in file.iter().enumerate() {
        d = with_place(d, i, *f, array[i]);
    }
    d
}
