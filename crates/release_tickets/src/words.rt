// The kinds of jobs in words.
use tickets::job_kind::{JobKind, Long, Update};

pub trait KindInWords: JobKind {
    const WORDS: &'static str;
}

impl KindInWords for Update {
    const WORDS: &'static str = "an update job";
}

impl KindInWords for Long {
    const WORDS: &'static str = "a long job";
}
