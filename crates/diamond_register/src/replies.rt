// Replies in words.
// Each program has its own words for a reply.
use jobs::declaration::Declaration;
use jobs::job_fault::JobFault;
use std::io;

fn refused(rt: HostRuntime, fault: JobFault) -> io::Result<()> {
    let number = fault.number();
    match fault.named() {
        Some(bay) => println!(rt; "is refused with {number}: bay {bay} holds the item"),
        None => println!(rt; "is refused with {number}"),
    }
}

pub fn answered(rt: HostRuntime, reply: Result<(), JobFault>) -> io::Result<()> {
    match reply {
        Ok(()) => println!(rt; "is accepted"),
        Err(fault) => refused(rt, fault),
    }
}

pub fn value(rt: HostRuntime, reply: Result<u32, JobFault>) -> io::Result<()> {
    match reply {
        Ok(value) => println!(rt; "gives {value}"),
        Err(fault) => refused(rt, fault),
    }
}

pub fn ticked(rt: HostRuntime, reply: Result<Declaration, JobFault>) -> io::Result<()> {
    match reply {
        Ok(Declaration { grade, number }) => println!(rt;
            "    the clock declares version {number} at grade {grade}"
        ),
        Err(fault) => refused(rt, fault),
    }
}
