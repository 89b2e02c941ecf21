// The row of a setting. specs/Heads.antt.
ghost use Rattle.std.specs.Prelude.{◌≡◌};
ghost use Rattle.heads.specs.Heads.{setting_row};

use rows::Row;
use standing::Setting;

pub fn row(line: u64, s: Setting, slots: [u64; 24]) -> Row
    ensures { result ≡ setting_row s line slots }
{
    let from = slots[7];
    let n = slots[8];
    let v = slots[9];
    let id = slots[10] as usize;
    match s {
        Setting::New => rows::numbered(line, 14 + id.min(1), 0, 0, 0),
        Setting::Fill => rows::numbered(line, 208 + id.min(1), from, n, v),
        Setting::Pattern => rows::numbered(line, 213, 0, 0, 0),
        Setting::Buffer => rows::numbered(line, 210, from, n, v),
        Setting::Lend => rows::numbered(line, 211, from, n, 0),
        Setting::Record => rows::numbered(line, 212, 0, 0, 0),
        Setting::Full => rows::numbered(line, 215, 0, 0, 0),
        Setting::Short => rows::numbered(line, 216, 0, 0, 0),
        Setting::Strict => rows::numbered(line, 214, 0, 0, 0),
    }
}
