// A serprog command half heard, and what a byte makes of it. specs/Heard.antt.
#![tactic(auto)]

ghost use Rattle.std.specs.Prelude.{◌≡◌, true, Option, None, Some};
ghost use Rattle.hearing.specs.Heard.{listening, after_code, after_lengths, given_with, after_parameter, after_one, heard_with, kept_with};

use serprog::Command;

// What the next byte is: a command's code, a parameter, a byte to send, or one of an operation that does not fit.
#[derive(Clone, Copy)]
pub enum Mode {
    Code,
    Parameters,
    Sent,
    Skipped,
}

// What is due after a byte that ends a command.
#[derive(Clone, Copy)]
pub enum Due {
    Answer,
    Operation,
}

// A command half heard: how many parameters it has, whether bytes to send follow, the parameters so far, and how many bytes are left to come
// of these or of those.
#[derive(Clone, Copy)]
pub struct Heard {
    pub mode: Mode,
    pub command: Command,
    pub parameters: usize,
    pub sends: bool,
    pub given: [u8; 6],
    pub left: usize,
    pub due: Option<Due>,
}

// A command's code comes next.
pub fn listening() -> Heard
    ensures { result ≡ listening }
{
    Heard {
        mode: Mode::Code,
        command: Command::Nothing,
        parameters: 0,
        sends: false,
        given: [0; 6],
        left: 0,
        due: None,
    }
}

impl Heard {
    // No byte is left, and this is due.
    fn ended(self, due: Due) -> Heard
        ensures { result ≡ Rattle.hearing.specs.Heard.heard Mode.Code self.command self.parameters self.sends self.given 0 (Some due) }
    {
        Heard {
            mode: Mode::Code,
            left: 0,
            due: Some(due),
            ..self
        }
    }

    // So many bytes are left.
    fn awaiting(self, mode: Mode, left: usize) -> Heard
        ensures { result ≡ Rattle.hearing.specs.Heard.heard mode self.command self.parameters self.sends self.given left None }
    {
        Heard {
            mode,
            left,
            due: None,
            ..self
        }
    }

    fn given_with(self, b: u8) -> [u8; 6]
        ensures { result ≡ given_with self b }
    {
        let mut p = self.given;
        let at = self.parameters.saturating_sub(self.left);
        if at < 6 {
            p[at] = b;
        }
        p
    }

    // An operation, its six parameters given: no byte follows, or so many.
    #[tactic(auto, unfolding(crate::specs::Heard::after_lengths))]
    fn after_lengths(self) -> Heard
        requires { self.sends ≡ true }
        ensures { result ≡ after_lengths self.command self.parameters self.given }
    {
        let p = self.given;
        let send = serprog::length_of(p[0], p[1], p[2]);
        let receive = serprog::length_of(p[3], p[4], p[5]);
        let fits = serprog::lengths_fit(send, receive);
        if send == 0 {
            return self.ended(if fits { Due::Operation } else { Due::Answer });
        }
        self.awaiting(if fits { Mode::Sent } else { Mode::Skipped }, send)
    }

    #[tactic(auto, unfolding(crate::specs::Heard::after_parameter))]
    fn after_parameter(self, b: u8) -> Heard
        ensures { result ≡ after_parameter self b }
    {
        let more = Heard {
            given: self.given_with(b),
            ..self
        };
        if 1 < self.left {
            return more.awaiting(Mode::Parameters, self.left - 1);
        }
        if self.sends {
            return more.after_lengths();
        }
        more.ended(Due::Answer)
    }

    // One byte fewer is left; after the last one this is due.
    #[tactic(auto, unfolding(crate::specs::Heard::after_one))]
    fn after_one(self, due: Due) -> Heard
        ensures { result ≡ after_one self due }
    {
        if 1 < self.left {
            return self.awaiting(self.mode, self.left - 1);
        }
        self.ended(due)
    }
}

#[tactic(auto, unfolding(crate::specs::Heard::after_code))]
fn after_code(b: u8) -> Heard
    ensures { result ≡ after_code b }
{
    let shape = serprog::shape_of(b);
    let heard = Heard {
        command: shape.command,
        parameters: shape.parameters,
        sends: shape.sends,
        ..listening()
    };
    if shape.parameters == 0 {
        return heard.ended(Due::Answer);
    }
    heard.awaiting(Mode::Parameters, shape.parameters)
}

// A byte more.
pub fn heard_with(h: Heard, b: u8) -> Heard
    ensures { result ≡ heard_with h b }
{
    match h.mode {
        Mode::Code => after_code(b),
        Mode::Parameters => h.after_parameter(b),
        Mode::Sent => h.after_one(Due::Operation),
        Mode::Skipped => h.after_one(Due::Answer),
    }
}

// A byte that is sent is kept.
pub fn keep(h: Heard, b: u8, sent: &mut [u8; 65536])
    ensures { sent.new ≡ kept_with h b sent.old }
{
    if let Mode::Sent = h.mode {
        let p = h.given;
        let at = serprog::length_of(p[0], p[1], p[2]).saturating_sub(h.left);
        if at < 65536 {
            sent[at] = b;
        }
    }
}
