// The memories and files that are lent, and bytes of slices.

pub type Memory = [u8; 2097153];

pub type Identity = [u8; 2049];

pub type File = [u8; 2148375];

// What lent buffers and memories hold before: a refusal leaves it.
pub const BEFORE: u8 = 0x5a;

// Every byte is this one. No early end: the machine then compares many bytes at once.
pub fn all_are(s: &[u8], v: u8) -> bool {
    s.iter().fold(0, |odd, b| odd | (*b ^ v)) == 0
}

// The first byte is another one.
pub fn turn(s: &mut [u8]) {
    if let Some(first) = s.first_mut() {
        *first ^= 1;
    }
}
