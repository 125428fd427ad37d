// The number with which a call is refused, or what it gives.
// Each program has its own words for a reply.
use jobs::declaration::Declaration;
use jobs::job_fault::JobFault;
use std::io;

fn refused(rt: HostRuntime, fault: JobFault) -> io::Result<()> {
    let number = fault.number();
    match fault.named() {
        Some(bay) => println!(rt; "{number}, bay {bay}"),
        None => println!(rt; "{number}"),
    }
}

pub fn answered(rt: HostRuntime, reply: Result<(), JobFault>) -> io::Result<()> {
    match reply {
        Ok(()) => println!(rt; "accepted"),
        Err(fault) => refused(rt, fault),
    }
}

pub fn read(rt: HostRuntime, reply: Result<u32, JobFault>) -> io::Result<()> {
    match reply {
        Ok(value) => println!(rt; "accepted, {value}"),
        Err(fault) => refused(rt, fault),
    }
}

pub fn ticked(rt: HostRuntime, reply: Result<Declaration, JobFault>) -> io::Result<()> {
    match reply {
        Ok(Declaration { grade, number }) => println!(rt; "accepted, {number} at grade {grade}"),
        Err(fault) => refused(rt, fault),
    }
}
