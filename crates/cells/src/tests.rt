// Examples at both kinds of value.
use crate::cell::Cell;
use crate::faults::{ReadFault, StoreFault};
use crate::slip::{Slip, SlipState};
use crate::value::{Value, WrongWidth};
use crate::version::Version;
use crate::version_store::{newest, read_at, store};
use std::test::Fail;

// Writes a value and reads it back.
fn through<V: Value>(value: V, out: &mut [u8]) -> Option<V> {
    value.write(out).ok()?;
    V::read(out)
}

#[test]
fn words_go_high_byte_first(rt: HostRuntime) {
    let mut bytes = [9, 9, 9, 9];
    assert_eq!(rt; through(0x01020304u32, &mut bytes), Some(0x01020304));
    assert_eq!(rt; bytes, [1, 2, 3, 4]);
    assert_eq!(rt; u32::read(&[1, 2, 3]), None);
    assert_eq!(rt; u32::read(&[1, 2, 3, 4, 5]), None);
    let mut short = [9, 9, 9];
    assert_eq!(rt; 7u32.write(&mut short), Err(WrongWidth));
    assert_eq!(rt; short, [9, 9, 9]);
}

#[test]
fn slips_refuse_other_states(rt: HostRuntime) {
    let slip = Slip {
        serial: 258,
        fault: 7,
        state: SlipState::SentBack,
    };
    let mut bytes = [0; 6];
    assert_eq!(rt; through(slip, &mut bytes), Some(slip));
    assert_eq!(rt; bytes, [0, 0, 1, 2, 7, 2]);
    assert_eq!(rt; Slip::read(&[0, 0, 1, 2, 7, 3]), None);
    assert_eq!(rt; Slip::read(&[0, 0, 1, 2, 7]), None);
    assert_eq!(rt; Slip::read(&[0, 0, 0, 0, 0, 0]), Some(Slip::start()));
}

#[test]
fn words_keep_three_versions(rt: HostRuntime) -> Result<(), Fail> {
    let mut cells = [Cell::<u32>::starting(), Cell::fresh(5)];
    store(&mut cells, 1, 1, 10)?;
    store(&mut cells, 1, 2, 20)?;
    store(&mut cells, 1, 2, 21)?;
    store(&mut cells, 1, 4, 40)?;
    assert_eq!(rt; store(&mut cells, 1, 3, 30), Err(StoreFault::OldNumber));
    assert_eq!(rt; store(&mut cells, 2, 3, 30), Err(StoreFault::NoCell));
    assert_eq!(rt; read_at(&cells, 1, 0), Ok(None));
    assert_eq!(rt;
        read_at(&cells, 1, 3),
        Ok(Some(Version {
            number: 2,
            value: 21,
        }))
    );
    assert_eq!(rt;
        newest(&cells, 1),
        Ok(Version {
            number: 4,
            value: 40,
        })
    );
    assert_eq!(rt;
        newest(&cells, 0),
        Ok(Version {
            number: 0,
            value: 0,
        })
    );
    assert_eq!(rt; newest(&cells, 2), Err(ReadFault::NoCell));
    Ok(())
}

#[test]
fn slips_keep_versions_too(rt: HostRuntime) -> Result<(), Fail> {
    let mut cells = [Cell::<Slip>::starting()];
    let slip = Slip {
        serial: 9,
        fault: 1,
        state: SlipState::Reflashed,
    };
    store(&mut cells, 0, 3, slip)?;
    assert_eq!(rt;
        read_at(&cells, 0, 2),
        Ok(Some(Version {
            number: 0,
            value: Slip::start(),
        }))
    );
    assert_eq!(rt;
        read_at(&cells, 0, 3),
        Ok(Some(Version {
            number: 3,
            value: slip,
        }))
    );
    assert_eq!(rt; read_at(&cells, 1, 3), Err(ReadFault::NoCell));
    Ok(())
}
