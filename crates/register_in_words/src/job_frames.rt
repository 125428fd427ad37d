// The frames of jobs in words: who does what.
use crate::values::ValueTold;
use lines::kinds::ValueKind;
use lines::operation::JobOperation;
use register_parts::job_kind::JobKind;
use std::fmt;

fn write_begin<W: fmt::Write>(f: &mut fmt::Formatter<W>, frame: &[u8]) -> fmt::Result {
    let [_, class, bay, kind] = frame else {
        return write!(f, "begin, in {} bytes", frame.len());
    };
    write!(f, "class {class}, bay {bay} begins ")?;
    match JobKind::try_from(*kind) {
        Ok(JobKind::Update) => f.write_str("an update job"),
        Ok(JobKind::Long) => f.write_str("a long job"),
        Err(_) => write!(f, "a job of kind {kind}"),
    }
}

fn write_read<W: fmt::Write>(f: &mut fmt::Formatter<W>, frame: &[u8]) -> fmt::Result {
    match frame {
        [_, class, bay, other, item] => write!(
            f,
            "class {class}, bay {bay} reads item {item} of class {other}"
        ),
        _ => write!(f, "read, in {} bytes", frame.len()),
    }
}

fn write_write<W: fmt::Write>(
    f: &mut fmt::Formatter<W>,
    kind: Option<ValueKind>,
    frame: &[u8],
) -> fmt::Result {
    match frame {
        [_, class, bay, item, _, ..] => {
            let value = ValueTold::new(kind, &frame[4..]);
            write!(f, "class {class}, bay {bay} writes {value} to item {item}")
        }
        _ => write!(f, "write, in {} bytes", frame.len()),
    }
}

// Commit and give up.
fn write_end<W: fmt::Write>(
    f: &mut fmt::Formatter<W>,
    frame: &[u8],
    does: &str,
    call: &str,
) -> fmt::Result {
    match frame {
        [_, class, bay] => write!(f, "class {class}, bay {bay} {does}"),
        _ => write!(f, "{call}, in {} bytes", frame.len()),
    }
}

fn write_tick<W: fmt::Write>(f: &mut fmt::Formatter<W>, frame: &[u8]) -> fmt::Result {
    match frame {
        [_] => f.write_str("tick"),
        _ => write!(f, "tick, in {} bytes", frame.len()),
    }
}

pub fn write_job<W: fmt::Write>(
    f: &mut fmt::Formatter<W>,
    kind: Option<ValueKind>,
    job: JobOperation,
    frame: &[u8],
) -> fmt::Result {
    match job {
        JobOperation::Begin => write_begin(f, frame),
        JobOperation::Read => write_read(f, frame),
        JobOperation::Write => write_write(f, kind, frame),
        JobOperation::Commit => write_end(f, frame, "commits", "commit"),
        JobOperation::GiveUp => write_end(f, frame, "gives up", "give up"),
        JobOperation::Tick => write_tick(f, frame),
    }
}
