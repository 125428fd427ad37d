// One line of a session in words: its text, the frame that it stands for, and the reply.
use crate::frame_told::{FrameTold, operation_of};
use crate::kinds_chosen::KindsChosen;
use crate::reply_told::ReplyTold;
use frames::decode::decode;
use frames::frame::Frame;
use std::fmt;
use std::str::from_utf8;

// Longer text stands for no frame, and is told by its length.
const LONGEST_SHOWN: usize = 20;

// The text of a line, or else its length, in a column of its own.
#[derive(Clone, Copy)]
struct Text<'a>(&'a [u8]);

impl Text<'_> {
    // Whether every character can be seen, or is a space.
    fn is_printable(&self) -> bool {
        self.0.iter().all(|byte| (b' '..=b'~').contains(byte))
    }

    fn shown(&self) -> Option<&str> {
        if self.0.is_empty() || self.0.len() > LONGEST_SHOWN || !self.is_printable() {
            return None;
        }
        from_utf8(self.0).ok()
    }
}

impl fmt::Display for Text<'_> {
    fn fmt<W: fmt::Write>(&self, f: &mut fmt::Formatter<W>) -> fmt::Result {
        match self.shown() {
            Some(text) => write!(f, "{text:<20}  "),
            None => write!(f, "{:>5} bytes           ", self.0.len()),
        }
    }
}

#[derive(Clone, Copy)]
pub struct LineTold<'a> {
    kinds: KindsChosen,
    text: &'a [u8],
    frame: Option<Frame>,
    reply: &'a [u8],
}

impl<'a> LineTold<'a> {
    pub fn new(kinds: KindsChosen, text: &'a [u8], reply: &'a [u8]) -> LineTold<'a> {
        LineTold {
            kinds,
            text,
            frame: decode(text),
            reply,
        }
    }

    // The kinds that are known after the line.
    pub fn kinds_after(&self) -> KindsChosen {
        match &self.frame {
            Some(frame) => {
                let bytes = frame.bytes();
                self.kinds.after(operation_of(bytes), bytes, self.reply)
            }
            None => self.kinds,
        }
    }
}

impl fmt::Display for LineTold<'_> {
    fn fmt<W: fmt::Write>(&self, f: &mut fmt::Formatter<W>) -> fmt::Result {
        let text = Text(self.text);
        match &self.frame {
            Some(frame) => {
                let bytes = frame.bytes();
                let operation = operation_of(bytes);
                let frame = FrameTold::new(self.kinds, operation, bytes);
                let reply = ReplyTold::new(self.kinds.values, operation, self.reply);
                write!(f, "{text}{frame}: {reply}")
            }
            None => {
                let reply = ReplyTold::new(self.kinds.values, None, self.reply);
                write!(f, "{text}no frame: {reply}")
            }
        }
    }
}
