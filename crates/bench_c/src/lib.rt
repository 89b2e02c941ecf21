// The archive for other languages: each function of crate bench under its name for C, with the same clauses.
#![tactic(auto)]

ghost use Rattle.std.specs.Prelude.{◌≡◌, true, false, []};
ghost use Rattle.rules.specs.Works.{tear_of};
ghost use Rattle.rules.specs.Promises.{carried_of};
ghost use Rattle.rules.specs.Demands.{frame_call, completion_call, cut_call};
ghost use Rattle.meanings.specs.Meanings.{MeaningBytes};
ghost use Rattle.bench.specs.Boundary.{lent_bench_of, came_of, circumstances_in, CallPromise, NewPromise};
ghost use Rattle.bench.specs.Images.{image_read_of, WriteImagePromise, ReadImagePromise};

use bench::Passed;

// A new chip's record: a BA.
#[unsafe(no_mangle)]
pub extern "C" fn fulkibono_new(bytes: &mut [u8]) -> u8
    ensures { NewPromise true bytes.old result bytes.new }
{
    bench::fulkibono_new(bytes)
}

// Of the old part.
#[unsafe(no_mangle)]
pub extern "C" fn fulkibono_new_old(bytes: &mut [u8]) -> u8
    ensures { NewPromise false bytes.old result bytes.new }
{
    bench::fulkibono_new_old(bytes)
}

// A frame: the bytes sent while CE# is low, the two reply buffers, and where a reset tears what runs.
#[unsafe(no_mangle)]
pub extern "C" fn fulkibono_frame(
    bytes: &mut [u8],
    array: &mut [u8],
    security: &mut [u8],
    sent: &[u8],
    reply: &mut [u8],
    marks: &mut [u8],
    x: Passed,
) -> u8
    ensures { CallPromise (lent_bench_of bytes.old array.old security.old) (frame_call (carried_of sent.now reply.old marks.old (circumstances_in x))) (came_of result bytes.new array.new security.new reply.new marks.new) }
{
    bench::fulkibono_frame(bytes, array, security, sent, reply, marks, x)
}

// The running operation ends.
#[unsafe(no_mangle)]
pub extern "C" fn fulkibono_completion(
    bytes: &mut [u8],
    array: &mut [u8],
    security: &mut [u8],
) -> u8
    ensures { CallPromise (lent_bench_of bytes.old array.old security.old) completion_call (came_of result bytes.new array.new security.new [] []) }
{
    bench::fulkibono_completion(bytes, array, security)
}

// A power cut in the middle of the running operation.
#[unsafe(no_mangle)]
pub extern "C" fn fulkibono_power_cut(
    bytes: &mut [u8],
    array: &mut [u8],
    security: &mut [u8],
    k: u64,
    m: u8,
) -> u8
    ensures { CallPromise (lent_bench_of bytes.old array.old security.old) (cut_call (tear_of k m)) (came_of result bytes.new array.new security.new [] []) }
{
    bench::fulkibono_power_cut(bytes, array, security, k, m)
}

// A whole idle chip as a file, into a lent buffer.
#[unsafe(no_mangle)]
pub extern "C" fn fulkibono_image_write(
    bytes: &[u8],
    array: &[u8],
    security: &[u8],
    file: &mut [u8],
) -> u8
    ensures { WriteImagePromise bytes.now array.now security.now file.old result file.new }
{
    bench::fulkibono_image_write(bytes, array, security, file)
}

// The chip in a file, in place of another. What is replaced is not judged: any bytes, as many as a record has.
#[unsafe(no_mangle)]
pub extern "C" fn fulkibono_image_read(
    file: &[u8],
    bytes: &mut [u8],
    array: &mut [u8],
    security: &mut [u8],
) -> u8
    ensures { ReadImagePromise file.now bytes.old array.old security.old (image_read_of result bytes.new array.new security.new) }
{
    bench::fulkibono_image_read(file, bytes, array, security)
}

// The text of a number; a number above 18 has none.
#[unsafe(no_mangle)]
pub extern "C" fn fulkibono_meaning(number: u8, text: &mut [u8]) -> usize
    ensures { MeaningBytes number text.old result text.new }
{
    bench::fulkibono_meaning(number, text)
}
