// Reads requests as lines of hexadecimal text, and says of each what it asks for or how it is refused.
#![tactic(auto)]

use hex_text::HexFault;
use lines::{LineFault, examine_line};
use request::Request;
use std::alloc::AllocError;
use std::io::{BufRead, BufReader};

mod lines;

// Prints whole lines, by the handle of the program; what stands in them is `Display`.
fn show_request(rt: &HostRuntime, request: &Request) -> anyhow::Result<()> {
    let header = request.header;
    println!(rt; "  version {}.{}", header.major, header.minor)?;
    println!(rt; "  operation Get-Notifications")?;
    println!(rt; "  request-id {}", header.id)?;
    for asked in request.wanted.as_slice() {
        println!(rt; "  subscription {} from number {}", asked.id, asked.lowest)?;
    }
    println!(rt; "  wait {}", if request.wait { "yes" } else { "no" })?;
    Ok(())
}

fn show_line(rt: &HostRuntime, number: u64, line: &str) -> anyhow::Result<()> {
    match examine_line(rt.alloc(), line.as_bytes()) {
        Ok(None) => {}
        Ok(Some(request)) => {
            println!(rt; "line {number}: request")?;
            show_request(rt, &request)?;
        }
        Err(LineFault::Hex(HexFault::Memory)) => return Err(AllocError {}.into()),
        Err(fault) => println!(rt; "line {number}: {fault}")?,
    }
    Ok(())
}

fn main(rt: HostRuntime) -> anyhow::Result<()> {
    let lines = BufReader::new(rt.alloc(), rt.stdin())?.lines(rt.alloc());
    for (number, line) in (1..).zip(lines) {
        show_line(&rt, number, line?.as_str().trim())?;
    }
    Ok(())
}
