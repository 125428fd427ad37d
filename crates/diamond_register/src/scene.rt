// A scene: a fresh register with the memory lent to it, at which steps are made as calls and printed in words with their replies.
use crate::diamond_order::DiamondOrder;
use crate::replies::{answered, ticked, value};
use crate::steps::{Action, Step};
use cells::value::Value;
use exclusive_rule::exclusive::Exclusive;
use jobs::memory::Memory;
use jobs::register::Register;
use register_parts::job_kind::JobKind;
use std::io;

#[derive(Drop)]
pub struct Scene<'a> {
    pub rt: HostRuntime,
    pub register: Register<DiamondOrder>,
    pub memory: Memory<'a, u32, Exclusive>,
    // The class that keeps silent.
    pub silent: Option<u8>,
}

impl Scene<'_> {
    // A part of the scene: its line, and its calls in turn, but for those of the class that keeps silent.
    pub fn part(&mut self, line: &str, steps: &[Step]) -> io::Result<()> {
        println!(self.rt; "  {line}")?;
        for step in steps {
            match *step {
                Step::Tick => ticked(self.rt, self.register.tick(&mut self.memory))?,
                Step::By(class, bay, action) => {
                    if self.silent != Some(class) {
                        self.act(class, bay, action)?
                    }
                }
            }
        }
        Ok(())
    }

    fn act(&mut self, class: u8, bay: u8, action: Action) -> io::Result<()> {
        let rt = self.rt;
        let register = &mut self.register;
        let memory = &mut self.memory;
        print!(rt; "    class {class}, bay {bay}: ")?;
        match action {
            Action::Begin => {
                print!(rt; "begin ")?;
                answered(
                    rt,
                    register.begin(memory, class, bay, u8::from(JobKind::Update)),
                )
            }
            Action::Read(other, item) => {
                print!(rt; "read of item {item} of class {other} ")?;
                value(rt, register.read(memory, class, bay, other, item))
            }
            Action::Write(item, value) => {
                print!(rt; "write of {value} to item {item} ")?;
                answered(rt, register.write(memory, class, bay, item, Some(value)))
            }
            Action::Commit => {
                print!(rt; "commit ")?;
                answered(rt, register.commit(memory, class, bay))
            }
        }
    }
}
