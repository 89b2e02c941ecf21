// Both models of the bench chip, side by side: the scripts that the arguments name, against what they expect and each other; then random
// lines of the same language, against each other. A difference in a random run is printed as a script that can be played again.
// Differences planted in the second model show that each comparison is made.
#![tactic(auto)]

mod feed;
mod report;

use comparing::Side;
use feed::Feed;
use grammar::Verb;
use report::Tally;
use script::Line;
use second::{Flat, Step};
use standing::Playing;

type Bytes = [u8; 65537];

// The bytes that come, what is counted, and the two models: what is played on the first, and the second's record; what a script is read into, and what each is lent.
#[derive(Drop)]
struct Trial<'a> {
    feed: Feed,
    tally: Tally,
    now: Playing,
    flat: Flat,
    frame: &'a mut Bytes,
    expected: &'a mut Bytes,
    known: &'a mut Bytes,
    remark: &'a mut Bytes,
    first: Side<'a>,
    second: Side<'a>,
}

// A line of the whole language that reaches the chip.
fn is_event(verb: Verb) -> bool {
    matches!(verb, Verb::Frame | Verb::Done | Verb::Cut)
}

impl Trial<'_> {
    // The first model takes a byte, and where that ends a line plays it.
    fn play(&mut self, b: u8) {
        let now = self.now;
        let first = &mut self.first;
        let array = &mut *first.array;
        let security = &mut *first.security;
        let reply = &mut *first.reply;
        let marks = &mut *first.marks;
        let frame = &mut *self.frame;
        let expected = &mut *self.expected;
        let known = &mut *self.known;
        let remark = &mut *self.remark;
        self.now = playing::take(
            now, b, array, security, frame, expected, known, remark, reply, marks,
        );
    }

    // The line on the second model, with the difference that is planted.
    fn play_second(&mut self, l: Line) -> Step {
        let s = comparing::played(self.flat, self.now, l, &*self.frame, &mut self.second);
        match self.feed.plant {
            Some(plant) if is_event(l.verb) => comparing::planted(plant, s, &mut self.second),
            _ => s,
        }
    }

    // A case is counted, or an event of a random run.
    fn count(&mut self, l: Line, number: u8) {
        if self.feed.random {
            if is_event(l.verb) {
                self.tally.count_event(self.flat, l, &*self.frame, number);
            }
        } else if l.verb == Verb::New {
            self.feed.count_case();
            self.tally.count_case(l, &*self.remark);
        }
    }

    // A line that the first model has played. What is not as it should be after it is told, and counted; of random lines and planted differences it is only
    // counted, but where they are printed.
    fn compare(&mut self, rt: &HostRuntime, unmet: u64) {
        let now = self.now;
        let l = script::line_of(now.reading);
        let s = self.play_second(l);
        let whole = self.feed.is_whole();
        let odd = comparing::compared(now, l, s, whole, &self.first, &self.second);
        self.count(l, s.number);
        if self.feed.shows() {
            let word = self.feed.word;
            report::say_line(rt, word, now.bench.line, unmet != report::unmet(now), odd);
        }
        self.feed.count_line(odd);
        self.flat = s.state;
    }

    // A byte is taken, or more come. A script's own lines begin on a bench of their own.
    fn turn(&mut self, rt: &HostRuntime) {
        match self.feed.take() {
            Some(b) => {
                let unmet = report::unmet(self.now);
                self.play(b);
                if self.now.reading.ended {
                    self.compare(rt, unmet);
                }
            }
            None => {
                if self.feed.starts() {
                    self.now = standing::start(false);
                }
                self.feed.more(rt, self.now, &mut self.tally);
            }
        }
    }
}

fn main(rt: HostRuntime) {
    let mut array = [255u8; 2097153];
    let mut security = [255u8; 2049];
    let mut reply = [0u8; 65537];
    let mut marks = [0u8; 65537];
    let mut array2 = [255u8; 2097153];
    let mut security2 = [255u8; 2049];
    let mut reply2 = [0u8; 65537];
    let mut marks2 = [0u8; 65537];
    let mut frame = [0u8; 65537];
    let mut expected = [0u8; 65537];
    let mut known = [0u8; 65537];
    let mut remark = [0u8; 65537];
    let first = Side {
        array: &mut array,
        security: &mut security,
        reply: &mut reply,
        marks: &mut marks,
    };
    let second = Side {
        array: &mut array2,
        security: &mut security2,
        reply: &mut reply2,
        marks: &mut marks2,
    };
    let mut trial = Trial {
        feed: Feed::new(),
        tally: report::no_counts(),
        now: standing::start(false),
        flat: second::fresh(),
        frame: &mut frame,
        expected: &mut expected,
        known: &mut known,
        remark: &mut remark,
        first,
        second,
    };
    // A proved loop has to end, and nothing says that an input does: so it counts its turns, up to a number that no run reaches.
    for _ in 0..u64::MAX {
        if trial.feed.is_over() {
            break;
        }
        trial.turn(&rt);
    }
}
