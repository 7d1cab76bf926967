// What is printed.
use crate::groups::{Report, Script};
use crate::lines::NoStep;
use crate::parts::Part;
use script::Seen;
use std::fmt;
use store::Sizes;

// What a store shows at a step; nothing where it has not come so far.
#[derive(Clone, Copy, PartialEq, Eq)]
struct Shown<'a>(Option<&'a Seen>);

impl fmt::Display for Shown<'_> {
    fn fmt<W: fmt::Write>(&self, f: &mut fmt::Formatter<W>) -> fmt::Result {
        match self.0 {
            Some(seen) => write!(f, "{seen}"),
            None => write!(f, "nothing"),
        }
    }
}

// What the stores of a group show at a step: once, if all show the same, else each by its name.
#[derive(Clone, Copy)]
struct AtStep<'a> {
    reports: &'a [Report],
    place: usize,
}

impl fmt::Display for AtStep<'_> {
    fn fmt<W: fmt::Write>(&self, f: &mut fmt::Formatter<W>) -> fmt::Result {
        let [first, others @ ..] = self.reports else {
            return Ok(());
        };
        let seen = first.seen.get(self.place);
        if others.iter().all(|r| r.seen.get(self.place) == seen) {
            return write!(f, "{}", Shown(seen));
        }
        write!(f, "differ")?;
        for report in self.reports {
            let seen = Shown(report.seen.get(self.place));
            write!(f, " [{}: {seen}]", report.name)?;
        }
        Ok(())
    }
}

// Prints whole lines, by the handle of the program; what stands in them is `Display`.
fn show_sizes(rt: &HostRuntime, group: &str, reports: &[Report]) -> anyhow::Result<()> {
    for report in reports {
        let name = report.name;
        let Sizes {
            slots,
            reserve,
            spare,
        } = report.sizes;
        println!(rt; "  {group}: {name}: slots {slots}, reserve {reserve}, spare {spare}")?;
    }
    Ok(())
}

// Plays a part, and shows what comes of each of its lines.
pub fn show_part(rt: &HostRuntime, part: &Part) -> anyhow::Result<()> {
    let sizes = part.sizes;
    let script = Script {
        heap: rt.alloc(),
        sizes,
        steps: &part.steps,
    };
    let plain = script.play_without_spare()?;
    let spared = script.play_with_spare()?;
    println!(rt;
        "line {}: sizes {} {} {}",
        part.line, sizes.slots, sizes.reserve, sizes.spare
    )?;
    show_sizes(rt, "no spare", &plain)?;
    show_sizes(rt, "with spare", &spared)?;
    for entry in &part.entries {
        let line = entry.line;
        match part.step_of(entry) {
            None => println!(rt; "line {line}: {NoStep}")?,
            Some((place, step)) => {
                let without = AtStep {
                    reports: &plain,
                    place,
                };
                let with = AtStep {
                    reports: &spared,
                    place,
                };
                println!(rt; "line {line}: {step}: no spare: {without}; with spare: {with}")?;
            }
        }
    }
    Ok(())
}
