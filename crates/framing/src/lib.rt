// The framing's four numbers, apart from the rest of the state: a payload word changes them and
// nothing else of the state.
#![tactic(auto)]

ghost use Rattle.std.specs.Prelude.{◌≡◌, ◌+◌, ◌≤◌, length};
ghost use Rattle.std.proofs.Math.Seq.{paste};
ghost use Rattle.framing.specs.Frames.{frame_of, with_frame, dropped_frame, ended_frame, header_frame, word_frame, word_area, ready_of, between_of, gathered_frame};
ghost use Rattle.state.specs.State.{most_payload};

use state::{MAX_COMMAND_WORDS, State};
use verdict::{Notes, Reason, Refused, Verdict};

#[derive(Clone, Copy, Debug, PartialEq)]
pub struct Frame {
    pub opcode: u32,
    pub gathered: u32,
    pub wanted: u32,
    pub notes: Notes,
}

impl From<State> for Frame {
    ghost from_gives = { λ s f. f ≡ frame_of s };

    fn from(s: State) -> Frame {
        Frame {
            opcode: s.opcode,
            gathered: s.gathered,
            wanted: s.wanted,
            notes: s.notes,
        }
    }
}

impl Frame {
    pub fn into_state(self, s: State) -> State
        ensures { result ≡ with_frame s self }
    {
        State {
            opcode: self.opcode,
            gathered: self.gathered,
            wanted: self.wanted,
            notes: self.notes,
            ..s
        }
    }

    // Only the header is dropped: the next word is a header.
    fn dropped(self, opcode: u32, reason: Reason) -> Frame
        ensures { result ≡ dropped_frame self opcode reason }
    {
        Frame {
            notes: verdict::noted(self.notes, opcode, Err(Refused { reason, index: 0 })),
            ..self
        }
    }

    // No command is begun any more, and what was refused is noted.
    pub fn ended(self, verdict: Verdict) -> Frame
        ensures { result ≡ ended_frame self verdict }
    {
        Frame {
            opcode: 0,
            gathered: 0,
            wanted: 0,
            notes: verdict::noted(self.notes, self.opcode, verdict),
        }
    }

    // Opcode in the top 8 bits, count in the low 24.
    #[tactic(auto, unfolding(crate::specs::Frames::header_frame))]
    fn header(self, word: u32) -> Frame
        ensures { result ≡ header_frame self word }
    {
        let opcode = word / 16777216;
        let count = word % 16777216;
        if opcode == 0 {
            return self.dropped(opcode, Reason::ZeroOpcode);
        }
        if count > MAX_COMMAND_WORDS {
            return self.dropped(opcode, Reason::CountTooLarge);
        }
        Frame {
            opcode,
            wanted: count,
            ..self
        }
    }

    // A word: a header, or one of the payload's, which goes to the command area.
    #[tactic(auto, unfolding(crate::specs::Frames::word_frame, crate::specs::Frames::word_area))]
    pub fn take_word(self, word: u32, command: &mut [u32]) -> Frame
        requires wanted_in_bounds { self.gathered + self.wanted ≤ length command.old }
        requires command_len { length command.old ≡ most_payload }
        ensures value { result ≡ word_frame self word }
        ensures command_after { command.new ≡ word_area self word command.old }
    {
        if self.wanted == 0 {
            return self.header(word);
        }
        let at = self.gathered as usize;
        command[at] = word;
        Frame {
            gathered: self.gathered + 1,
            wanted: self.wanted - 1,
            ..self
        }
    }

    // Is a command begun, and its payload complete?
    #[tactic(auto, unfolding(crate::specs::Frames::ready_of))]
    pub fn ready(self) -> bool
        ensures { result ≡ ready_of self }
    {
        self.wanted == 0 && self.opcode != 0
    }

    // How many of the words left are payload before the last one wanted: they make a run.
    pub fn between(self, left: usize) -> usize
        ensures { result ≡ between_of self left }
    {
        left.min(self.wanted.saturating_sub(1) as usize)
    }

    // A run of payload words, copied at once.
    pub fn gather(self, words: &[u32], command: &mut [u32]) -> Frame
        requires words_len_bound { length words.now ≤ self.wanted }
        requires wanted_in_bounds { self.gathered + self.wanted ≤ length command.old }
        requires command_len { length command.old ≡ most_payload }
        ensures value { result ≡ gathered_frame self (length words.now) }
        ensures command_after { command.new ≡ paste command.old self.gathered words.now (length words.now) }
    {
        store::words::write_at(command, self.gathered as usize, words);
        let n = words.len() as u32;
        Frame {
            gathered: self.gathered + n,
            wanted: self.wanted - n,
            ..self
        }
    }
}
