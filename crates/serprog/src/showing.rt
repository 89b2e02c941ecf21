// The disguise: the identity of the 3-volt sibling in the place of the chip's own.
ghost use Rattle.std.specs.Prelude.{◌≡◌, length, get_or};
ghost use Rattle.rules.specs.Words.{lent, written};
ghost use Rattle.serprog.specs.Showing.{disguised, sibling, shown_byte};

fn is_disguised(disguise: bool, done: bool, op: u8) -> bool
    ensures { result ≡ disguised disguise done op }
{
    disguise & done & ((op == 0x9f) | (op == 0xaf))
}

// The byte at a place of an identity, with the sibling's device byte.
fn sibling_byte(place: usize, byte: u8) -> u8
    ensures { result ≡ sibling place byte }
{
    if place % 3 == 2 { 0x41 } else { byte }
}

fn to_sibling(reply: &mut [u8])
    ensures { lent reply.new ≡ written (length reply.old) (λ i. sibling i (get_or reply.old i 0)) }
{
    for (i, b) in reply.iter_mut().enumerate() {
        *b = sibling_byte(i, *b);
    }
}

// What the tool is shown of the reply to a frame.
pub fn show(disguise: bool, done: bool, op: u8, reply: &mut [u8])
    ensures { lent reply.new ≡ written (length reply.old) (λ i. shown_byte disguise done op i (get_or reply.old i 0)) }
{
    if is_disguised(disguise, done, op) {
        to_sibling(reply);
    }
}
