// What a script asks: nothing on the chip changes, but what it expects may not be met. specs/Questions.antt.
#![tactic(auto)]

ghost use Rattle.std.specs.Prelude.{◌≡◌, eqb, ltb, length, ◌+◌, ◌%◌};
ghost use Rattle.rules.specs.Words.{pick};
ghost use Rattle.fields.specs.Records.{same_record_lem};
ghost use Rattle.asking.specs.Questions.{one_unmet, answered, Compared, ComparedIf, registers_of, silent, QuestionPlayed};

use script::Line;
use standing::{Bench, Playing, Question};

const ARRAY_SIZE: usize = 2_097_152;

const SECURITY_SIZE: usize = 2048;

// The remainder; of 0 it is 0.
fn remainder(i: usize, n: usize) -> usize
    ensures { result ≡ pick (eqb n 0) 0 (i % n) }
{
    i.checked_rem(n).unwrap_or(0)
}

// The n places from `start` on go past the end of so many.
fn past_end(size: usize, start: usize, n: usize) -> bool
    ensures { result ≡ ltb size (start + n) }
{
    size < start || size - start < n
}

fn one_unmet(b: Bench) -> Bench
    ensures { result ≡ one_unmet b }
{
    Bench {
        tally: tallies::with_unmet(b.tally, 1),
        ..b
    }
}

fn answered(p: Playing, b: Bench, number: u8, held: usize) -> Playing
    ensures { result ≡ answered p b number held }
{
    Playing {
        bench: b,
        number,
        held,
        ..p
    }
}

// What stands in a memory is compared with the expected bytes, over and over: the first place that differs, or n.
fn compared(
    p: Playing,
    start: usize,
    n: usize,
    memory: &[u8],
    expected: &[u8],
    known: &[u8],
) -> Playing
    ensures { Compared p start n memory.now expected.now known.now result }
{
    let b = p.bench;
    let count = expected.len();
    let held = expecting::first_unheld(memory, start, n, expected, known, count);
    if (held < n) | (remainder(n, count) != 0) | past_end(memory.len(), start, n) {
        return answered(p, one_unmet(b), p.number, held);
    }
    answered(p, b, p.number, held)
}

fn compared_if(
    silent: bool,
    p: Playing,
    start: usize,
    n: usize,
    memory: &[u8],
    expected: &[u8],
    known: &[u8],
) -> Playing
    ensures { ComparedIf silent p start n memory.now expected.now known.now result }
{
    if silent {
        p
    } else {
        compared(p, start, n, memory, expected, known)
    }
}

// Expected are the status and, where there are two, the configuration.
fn status(p: Playing, l: Line, expected: &[u8], known: &[u8]) -> Playing
    ensures { ComparedIf (silent l) p 0 (length expected.now) (registers_of p.bench.chip.rest) expected.now known.now result }
{
    let rest = p.bench.chip.rest;
    let registers = [
        registers::status_of(rest),
        registers::configuration_of(rest),
    ];
    compared_if(
        l.slots[4] == 0,
        p,
        0,
        expected.len(),
        &registers,
        expected,
        known,
    )
}

fn is(p: Playing, l: Line) -> Playing
    ensures { result ≡ pick (same_record_lem p.bench.chip l.slots) p (answered p (one_unmet p.bench) 1 p.held) }
{
    if fields::same_record(p.bench.chip, l.slots) {
        p
    } else {
        answered(p, one_unmet(p.bench), 1, p.held)
    }
}

pub fn played(
    p: Playing,
    q: Question,
    l: Line,
    array: &[u8],
    security: &[u8],
    expected: &[u8],
    known: &[u8],
) -> Playing
    ensures { QuestionPlayed q p l array.now security.now expected.now known.now result }
{
    let x = l.expected.min(expected.len());
    let k = l.expected.min(known.len());
    let a = ARRAY_SIZE.min(array.len());
    let s = SECURITY_SIZE.min(security.len());
    let slots = l.slots;
    let silent = slots[4] == 0;
    match q {
        Question::Status => status(p, l, &expected[..x], &known[..k]),
        Question::Work | Question::Locks => p,
        Question::Dump => {
            let from = slots[7] as usize;
            let n = slots[8] as usize;
            if slots[10] == 0 {
                compared_if(silent, p, from, n, &array[..a], &expected[..x], &known[..k])
            } else {
                compared_if(
                    silent,
                    p,
                    from,
                    n,
                    &security[..s],
                    &expected[..x],
                    &known[..k],
                )
            }
        }
        Question::Is => is(p, l),
    }
}
