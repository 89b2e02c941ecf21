// The two models' records, brought to one form: second's, which has numbers only. Its kinds of work are those of crate numbering.
use rules::{Chip, Rest};
use second::Flat;

pub fn flat_of(c: Chip) -> Flat {
    let Rest {
        locks,
        burst,
        works,
        flags,
    } = c.rest;
    let buffer = c.buffer;
    Flat {
        buffer,
        protection: locks.protection,
        permanent: locks.permanent,
        run_kind: (numbering::kind_of(works.running) % 16) as u8,
        run_number: numbering::number_of(works.running),
        sus_kind: (numbering::kind_of(works.suspended) % 16) as u8,
        sus_number: numbering::number_of(works.suspended),
        sqi: flags.sqi,
        wel: flags.wel,
        ioc: flags.ioc,
        wpen: flags.wpen,
        wpld: flags.wpld,
        sec: flags.sec,
        enable: flags.enable,
        burst: (numbering::burst_byte(burst) % 16) as u8,
        ba: flags.ba,
    }
}

// The two records are the same.
pub fn same_records(c: Chip, f: Flat) -> bool {
    flat_of(c) == f
}
