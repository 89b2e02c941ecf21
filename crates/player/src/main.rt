// Plays scripts on the bench chip: the files named as arguments, or standard input where there are none; examples/play proves, builds
// and starts it. The program only carries: it reads bytes, has each taken by crate playing, and writes the rows that crate telling gives.
#![tactic(auto)]

mod files;
mod posts;

fn main(rt: HostRuntime) {
    files::all_played(&rt);
}
