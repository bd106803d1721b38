// Shows on something real what is stored where: a day's weighings in a bay over a strip of bytes.
#![tactic(auto)]

use std::io;
use store::{Bay, Cells};
use strip::Strip;
use weighings::{lay_day, line_at};

// Loads of gravel in kilograms; the third corrects the second.
const WEIGHINGS: [i32; 5] = [18340, 22015, -180, 19760, 21005];

// Each byte is ee at first, so that a reader sees which are never altered.
fn main(rt: HostRuntime) -> io::Result<()> {
    let mut bytes = [0xee; 46];
    let bay = lay_day(
        Bay {
            below: Strip { bytes: &mut bytes },
            first: 2,
            len: 7,
        },
        &WEIGHINGS,
    );
    show_cells(&rt, &bay)?;
    show_bytes(&rt, &bay)?;
    show_left_over(&rt, &bay.below)
}

fn show_cells(rt: &HostRuntime, bay: &Bay<Strip>) -> io::Result<()> {
    let count = bay.count();
    println!(rt; "bay: {count} cells")?;
    // The number of a cell is printed too: an iterator over the cells would be no shorter.
    for n in 0..count {
        if let Ok(number) = bay.get(n) {
            println!(rt; "  cell {n:>2}   {number:>11}")?;
        }
    }
    Ok(())
}

fn show_bytes(rt: &HostRuntime, bay: &Bay<Strip>) -> io::Result<()> {
    let count = bay.below.count();
    let len = bay.below.bytes.len();
    println!(rt; "strip: {count} cells over {len} bytes")?;
    for line in (0..count).filter_map(|n| line_at(&bay.below, n)) {
        match line.cell.checked_sub(bay.first) {
            Some(k) if k < bay.count() => println!(rt; "  {line}   bay {k}")?,
            _ => println!(rt; "  {line}")?,
        }
    }
    Ok(())
}

fn show_left_over(rt: &HostRuntime, strip: &Strip) -> io::Result<()> {
    let at = 4 * strip.count();
    println!(rt; "left over from byte {at} on")?;
    for byte in strip.bytes.iter().skip(at) {
        println!(rt; "  {byte:02x}")?;
    }
    Ok(())
}
