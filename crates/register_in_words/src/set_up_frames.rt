// The frames of set-up in words.
use lines::kinds::{OrderKind, ValueKind};
use rules::chosen_rule::RuleKind;
use sets::small_set::SmallSet;
use std::fmt;

// A kind in words; other words where no kind has its number.
fn write_kind<K: fmt::Display + Drop, W: fmt::Write>(
    f: &mut fmt::Formatter<W>,
    kind: Option<K>,
    none: &str,
) -> fmt::Result {
    match kind {
        Some(kind) => write!(f, "{kind}"),
        None => f.write_str(none),
    }
}

// The members of a set, as numbers.
#[derive(Clone, Copy)]
struct Members(SmallSet);

impl fmt::Display for Members {
    fn fmt<W: fmt::Write>(&self, f: &mut fmt::Formatter<W>) -> fmt::Result {
        for member in 0..16u8 {
            if self.0.contains(member) {
                write!(f, " {member}")?;
            }
        }
        Ok(())
    }
}

fn write_below<W: fmt::Write>(f: &mut fmt::Formatter<W>, set: u16) -> fmt::Result {
    if set == 0 {
        return f.write_str("above no class");
    }
    let members = Members(SmallSet::from(u64::from(set)));
    write!(f, "directly above{members}")
}

fn write_label<W: fmt::Write>(
    f: &mut fmt::Formatter<W>,
    rank: u8,
    compartments: u8,
) -> fmt::Result {
    if compartments == 0 {
        return write!(f, "rank {rank}, no compartment");
    }
    let members = Members(SmallSet::from(u64::from(compartments)));
    write!(f, "rank {rank}, compartments{members}")
}

// Where a class stands in the order, in two bytes.
fn write_position<W: fmt::Write>(
    f: &mut fmt::Formatter<W>,
    order: Option<OrderKind>,
    high: u8,
    low: u8,
) -> fmt::Result {
    match order {
        Some(OrderKind::Drawn) => write_below(f, u16::from_be_bytes([high, low])),
        Some(OrderKind::Labelled) => write_label(f, high, low),
        None => f.write_str("in no order yet"),
    }
}

// The noun that goes with a number.
fn noun(count: u8, one: &'static str, more: &'static str) -> &'static str {
    if count == 1 { one } else { more }
}

pub fn write_choice<W: fmt::Write>(f: &mut fmt::Formatter<W>, frame: &[u8]) -> fmt::Result {
    match frame {
        [_, order, values, classes] => {
            f.write_str("choose: ")?;
            write_kind(f, OrderKind::try_from(*order).ok(), "no such order")?;
            f.write_str(", ")?;
            write_kind(
                f,
                ValueKind::try_from(*values).ok(),
                "no such kind of value",
            )?;
            write!(f, ", {classes} {}", noun(*classes, "class", "classes"))
        }
        _ => write!(f, "choose, in {} bytes", frame.len()),
    }
}

pub fn write_class<W: fmt::Write>(
    f: &mut fmt::Formatter<W>,
    order: Option<OrderKind>,
    frame: &[u8],
) -> fmt::Result {
    match frame {
        [_, class, high, low, items] => {
            write!(f, "add class {class}: ")?;
            write_position(f, order, *high, *low)?;
            write!(f, ", {items} {}", noun(*items, "item", "items"))
        }
        _ => write!(f, "add a class, in {} bytes", frame.len()),
    }
}

pub fn write_start<W: fmt::Write>(f: &mut fmt::Formatter<W>, frame: &[u8]) -> fmt::Result {
    match frame {
        [_, rule] => {
            f.write_str("start: ")?;
            write_kind(f, RuleKind::try_from(*rule).ok(), "no such rule")
        }
        _ => write!(f, "start, in {} bytes", frame.len()),
    }
}
