// The bench's chip as an image, and an image as the bench's chip. specs/Images.antt.
#![tactic(auto)]

ghost use Rattle.std.specs.Prelude.{◌≡◌};
ghost use Rattle.image_posts.specs.Images.{Saved, with_chip, Loaded};

use posting::{Carried, Report};
use rules::Chip;
use standing::{Bench, Playing};

// The image of the chip, with as much of the memories as is lent.
pub fn save(p: Playing, array: &[u8], security: &[u8], file: &mut [u8]) -> u8
    ensures { Saved p array.now security.now file.old result file.new }
{
    let bench = p.bench;
    let chip = bench.chip;
    let a = bench.array.min(array.len());
    let s = bench.security.min(security.len());
    image::number(image_writing::write(chip, &array[..a], &security[..s], file))
}

fn with_chip(p: Playing, c: Chip) -> Playing
    ensures { result ≡ with_chip p c }
{
    standing::with_bench(p, Bench { chip: c, ..p.bench })
}

// The chip in the file, into as much of the memories as is lent; and what is wrong with the file first.
pub fn load(p: Playing, array: &mut [u8], security: &mut [u8], file: &[u8]) -> Carried
    ensures { Loaded p array.old security.old file.now result array.new security.new }
{
    let bench = p.bench;
    let chip = bench.chip;
    let a = bench.array.min(array.len());
    let s = bench.security.min(security.len());
    let r = image_reading::read(chip, file, &mut array[..a], &mut security[..s]);
    let read = r.chip;
    let number = image::number(r.answer);
    let now = with_chip(p, read);
    let playing = posting::judge(now, None, number, false);
    let report = Report {
        trouble: None,
        length: file.len(),
        fault: image_reading::fault(file),
        difference: None,
    };
    Carried { playing, report }
}
