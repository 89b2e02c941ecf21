// The paper's values (document 02, W-203 and W-204): bytes of files, each reckoned by hand. Both models write the file; the first one's is shown, and the two are the same.
use crate::bench::{Bench, RIGHT};
use crate::report::Report;
use comparing::bytes::front_mut;
use image_drawing::chips;
use image_drawing::places::File;
use rules::{Chip, Flags, Rest};

fn both_write<P: Print>(c: Chip, report: &mut Report<P>, bench: &mut Bench) {
    let odd = bench.write(c, RIGHT, Some(0), None, &mut report.counts);
    report.tell("the paper's values", 0, odd);
}

// ---- a new chip of each part, all FF

// RG is the first: protection 55 55 FF FF FF FF, nothing permanent, burst 0. 55 + 55 + 4 * FF = AA + 3FC = 4A6. The old part has no flag.
fn show_old_part<P: Print>(report: &mut Report<P>, file: &File) {
    report.show(
        file,
        0,
        b"RG\x55\x55\xff\xff\xff\xff\x00\x00\x00\x00\x00\x00\x00\x00\x04\xa6SI",
    );
}

// BA has IOC and bit 7: 4 + 80 = 84, and 4A6 + 84 = 52A. SI stands behind the 2 + 14 + 2 = 18 bytes of RG: 800 * FF = 7F800, which wraps to F800; its sum is
// at 18 + 2 + 2,048 = 2,068.
fn show_front<P: Print>(report: &mut Report<P>, file: &File) {
    report.show(
        file,
        0,
        b"RG\x55\x55\xff\xff\xff\xff\x00\x00\x00\x00\x00\x00\x84\x00\x05\x2a",
    );
    report.show(file, 18, b"SI\xff\xff");
    report.show(file, 2066, b"\xff\xff\xf8\x00PG");
}

// PG n stands at 2,070 + 262 n: mark, number high byte first, page, sum at 260 behind the mark. A blank page has 100 * FF = FF00.
fn show_pages<P: Print>(report: &mut Report<P>, file: &File) {
    // FF00 + 0
    report.show(file, 2070, b"PG\x00\x00\xff");
    report.show(file, 2330, b"\xff\x00PG\x00\x01\xff");
    // page 1: FF00 + 1
    report.show(file, 2592, b"\xff\x01PG\x00\x02\xff");
    // page 0100 at 2,070 + 262 * 256 = 69,142: FF00 + 1
    report.show(file, 69142, b"PG\x01\x00\xff");
    report.show(file, 69402, b"\xff\x01PG\x01\x01\xff");
    // page 01FF at 2,070 + 262 * 511 = 135,952: FF00 + 1 + FF = 10000, which wraps to 0000
    report.show(file, 135952, b"PG\x01\xff\xff");
    report.show(file, 136212, b"\x00\x00PG\x02\x00\xff");
    // page 1FFF, the last, at 2,070 + 262 * 8,191 = 2,148,112: FF00 + 1F + FF = 1001E, which wraps to 001E
    report.show(file, 2148112, b"PG\x1f\xff\xff");
    // the file has 2,148,112 + 262 = 2,148,374 bytes, and the byte behind them stays 5A
    report.show(file, 2148371, b"\xff\x00\x1e\x5a");
}

// ---- flags and codes

// Flags and code stand at 2 + 6 + 6 = 14 and 15; each counts in the sum of RG, which is 04A6 for a new chip of the old part.

fn with_flags(flags: Flags) -> Chip {
    let c = chip::new_old();
    let rest = Rest { flags, ..c.rest };
    Chip { rest, ..c }
}

// Each flag alone: "Flags from bit 0: SQI, WEL, IOC, WPEN, WPLD, SEC, reset enable", and "bit 7 .. now holds" the part, "1 for BA". Its bit, and 04A6 with it.
fn show_flags<P: Print>(report: &mut Report<P>, bench: &mut Bench) {
    let none = chip::new_old().rest.flags;
    let alone = [
        (Flags { sqi: true, ..none }, b"\x01\x00\x04\xa7SI"),
        (Flags { wel: true, ..none }, b"\x02\x00\x04\xa8SI"),
        (Flags { ioc: true, ..none }, b"\x04\x00\x04\xaaSI"),
        (Flags { wpen: true, ..none }, b"\x08\x00\x04\xaeSI"),
        (Flags { wpld: true, ..none }, b"\x10\x00\x04\xb6SI"),
        (Flags { sec: true, ..none }, b"\x20\x00\x04\xc6SI"),
        (
            Flags {
                enable: true,
                ..none
            },
            b"\x40\x00\x04\xe6SI",
        ),
        (Flags { ba: true, ..none }, b"\x80\x00\x05\x26SI"),
    ];
    for (flags, text) in alone {
        both_write(with_flags(flags), report, bench);
        report.show(bench.file, 14, text);
    }
}

// The code, and 04A6 with it.
fn show_bursts<P: Print>(report: &mut Report<P>, bench: &mut Bench) {
    let codes = [
        (0, b"\x00\x00\x04\xa6SI"),
        (1, b"\x00\x01\x04\xa7SI"),
        (2, b"\x00\x02\x04\xa8SI"),
        (3, b"\x00\x03\x04\xa9SI"),
    ];
    for (code, text) in codes {
        both_write(chips::flagged(0, code), report, bench);
        report.show(bench.file, 14, text);
    }
}

// ---- registers and memories

// Protection 12 34 56 78 9A BC sums to 26A; permanent 10 14 10 38 0A B0, each bit also in protection, to 126; all flags are FF, burst 3: 492.
// 00 to FF sum to 7F80. SI has them 8 times: 3FC00, which wraps to FC00. Page 3 adds 3: 7F83, at 2,070 + 3 * 262 + 260 = 3,116; page 1FFF adds 11E: 809E.
fn show_counting<P: Print>(report: &mut Report<P>, file: &File) {
    report.show(
        file,
        0,
        b"RG\x12\x34\x56\x78\x9a\xbc\x10\x14\x10\x38\x0a\xb0\xff\x03\x04\x92SI\x00\x01\x02",
    );
    report.show(file, 2066, b"\xfe\xff\xfc\x00PG\x00\x00\x00\x01\x02");
    report.show(file, 3116, b"\x7f\x83PG\x00\x04\x00\x01\x02");
    report.show(file, 2148371, b"\xff\x80\x9e\x5a");
}

fn fill_counting(bench: &mut Bench) {
    let array = &mut *bench.array;
    let security = &mut *bench.security;
    chips::fill_counting(front_mut(RIGHT.array, array));
    chips::fill_counting(front_mut(RIGHT.security, security));
}

pub fn show_paper<P: Print>(report: &mut Report<P>, bench: &mut Bench) {
    both_write(chip::new_old(), report, bench);
    show_old_part(report, bench.file);
    both_write(chip::new(), report, bench);
    show_front(report, bench.file);
    show_pages(report, bench.file);
    show_flags(report, bench);
    show_bursts(report, bench);
    fill_counting(bench);
    both_write(
        chips::with_registers(0x1234_5678_9abc, 0x1014_1038_0ab0),
        report,
        bench,
    );
    show_counting(report, bench.file);
}
