// Calls on a clock: its declared numbers, and one more tick.
ghost use Rattle.std.specs.Prelude.{◌≡◌};
ghost use Rattle.laws.specs.Clock.{declared as declared_number};
ghost use Rattle.register_parts.specs.ClockCalls.{Shows, next_declaration, advance_reply, advanced_ticks, Declares};

use crate::clock::Clock;
use crate::declaration::Declaration;
use crate::job_fault::JobFault;

// The clock stops after so many ticks.
const LAST_TICK: u32 = 1_000_000;

impl Clock {
    // The declared number of a grade; 0 where there is no such grade.
    pub fn declared(&self, grade: u8) -> u32
        ensures reply { result ≡ declared_number self.now.top grade self.now.ticks }
    {
        self.numbers.get(usize::from(grade)).copied().unwrap_or(0)
    }

    // What the next tick declares: the grades take turns, from 0 up to the greatest.
    pub fn next(&self) -> Declaration
        ensures reply { result ≡ next_declaration self.now }
    {
        let grades = u32::from(self.top) + 1;
        Declaration {
            grade: (self.ticks % grades) as u8,
            number: self.ticks / grades + 1,
        }
    }

    // One more tick.
    pub fn advance(&mut self) -> Result<Declaration, JobFault>
        ensures reply { result ≡ advance_reply self.old }
        ensures state { Shows self.new self.old.top (advanced_ticks self.old.ticks) }
        ensures laws { Declares result self.new }
    {
        if self.ticks >= LAST_TICK {
            return Err(JobFault::ClockAtEnd);
        }
        let next = self.next();
        self.numbers[usize::from(next.grade)] = next.number;
        self.ticks += 1;
        Ok(next)
    }
}
