// Plays scripts on several stores, and says what each group of them shows.
#![tactic(auto)]

use lines::{NoStep, Order, read_line};
use parts::Part;
use show::show_part;
use std::io::{BufRead, BufReader};

mod groups;
mod lines;
mod parts;
mod show;

// The number of the last line, which stays at its most where there are more lines, and the part that
// the line belongs to.
#[derive(Drop)]
struct Input {
    line: u32,
    part: Option<Part>,
}

impl Input {
    fn take_line(&mut self, rt: &HostRuntime, text: &[u8]) -> anyhow::Result<()> {
        self.line = self.line.saturating_add(1);
        let line = self.line;
        let puts = self.part.as_ref().map_or(0, |part| part.puts);
        let order = read_line(text, puts.saturating_add(1), line);
        match (order, &mut self.part) {
            (Ok(None), _) => {}
            (Ok(Some(Order::Make(sizes))), _) => {
                self.show(rt)?;
                self.part = Some(Part::new(rt.alloc(), line, sizes));
            }
            (Ok(Some(Order::Take(step))), Some(part)) => part.add_step(line, step)?,
            (Err(NoStep), Some(part)) => part.add_fault(line)?,
            (_, None) => println!(rt; "line {line}: no sizes yet")?,
        }
        Ok(())
    }

    // Shows the part, if there is one.
    fn show(&self, rt: &HostRuntime) -> anyhow::Result<()> {
        match &self.part {
            Some(part) => show_part(rt, part),
            None => Ok(()),
        }
    }
}

fn main(rt: HostRuntime) -> anyhow::Result<()> {
    let heap = rt.alloc();
    let mut input = Input {
        line: 0,
        part: None,
    };
    for line in BufReader::new(heap, rt.stdin())?.lines(heap) {
        input.take_line(&rt, line?.as_bytes())?;
    }
    input.show(&rt)
}
