// A scene: a register with the memory lent to it, at which each call is printed in words with its reply.
use cells::value::Value;
use jobs::declaration::Declaration;
use jobs::job_fault::JobFault;
use jobs::memory::Memory;
use jobs::register::Register;
use orders::drawn_order::DrawnOrder;
use register_parts::job_kind::JobKind;
use rules::locks::Locks;
use std::io;

#[derive(Drop)]
pub struct Scene<'a> {
    pub rt: HostRuntime,
    pub register: Register<DrawnOrder>,
    pub memory: Memory<'a, u32, Locks>,
}

impl Scene<'_> {
    // A line of the story between the calls.
    pub fn tell(&self, line: &str) -> io::Result<()> {
        println!(self.rt; "{line}")
    }

    fn replied(
        &self,
        class: u8,
        bay: u8,
        action: &str,
        reply: Result<(), JobFault>,
    ) -> io::Result<()> {
        match reply {
            Ok(()) => println!(self.rt; "    class {class}, bay {bay}: {action}"),
            Err(fault) => println!(self.rt;
                "    class {class}, bay {bay}: {action} is refused with {}, {fault}",
                fault.number()
            ),
        }
    }

    // Class and bay stay two numbers, as the calls that are shown here take them.
    pub fn begin(&mut self, class: u8, bay: u8) -> io::Result<()> {
        let reply = self
            .register
            .begin(&self.memory, class, bay, u8::from(JobKind::Update));
        self.replied(class, bay, "begins an update job", reply)
    }

    pub fn commit(&mut self, class: u8, bay: u8) -> io::Result<()> {
        let reply = self.register.commit(&mut self.memory, class, bay);
        self.replied(class, bay, "commit", reply)
    }

    pub fn write(&mut self, class: u8, bay: u8, item: u8, value: u32) -> io::Result<()> {
        match self
            .register
            .write(&mut self.memory, class, bay, item, Some(value))
        {
            Ok(()) => println!(self.rt;
                "    class {class}, bay {bay}: writes {value} to item {item}"
            ),
            Err(fault) => self.replied(class, bay, "write", Err(fault)),
        }
    }

    pub fn read(&mut self, class: u8, bay: u8, other: u8, item: u8) -> io::Result<()> {
        match self
            .register
            .read(&mut self.memory, class, bay, other, item)
        {
            Ok(value) => println!(self.rt;
                "    class {class}, bay {bay}: reads {value} from item {item} of class {other}"
            ),
            Err(fault) => self.replied(class, bay, "read", Err(fault)),
        }
    }

    pub fn tick(&mut self) -> io::Result<()> {
        match self.register.tick(&mut self.memory) {
            Ok(Declaration { grade, number }) => println!(self.rt;
                "    the clock declares version {number} at grade {grade}"
            ),
            Err(fault) => println!(self.rt; "    the clock is refused: {fault}"),
        }
    }
}
