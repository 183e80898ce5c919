// Evaluates the programs of data/, each to the answer that its line tells, and prints a line for each.
#![tactic(auto)]

mod case; // a line's program is evaluated, and what comes of it compared
mod file; // a file of lines
mod pattern; // what stands in the stores and the output at entry
mod word; // the words of a line

use file::Count;
use printing::Page;
use std::fmt::Write;

fn print_count(stdout: &impl Print, stderr: &impl Print, count: Count) {
    let right = count.right;
    let wrong = count.wrong;
    let mut room = [0u8; 64];
    let mut page = Page::new(&mut room);
    let _ = writeln!(page, "{right} right, {wrong} wrong");
    page.send(stdout, stderr);
}

fn main(rt: HostRuntime) {
    let stderr = rt.stderr();
    let none = Count { right: 0, wrong: 0 };
    let worked = file::tried(&rt, &stderr, "worked.txt", none);
    let small = file::tried(&rt, &stderr, "small.txt", worked);
    let limits = file::tried(&rt, &stderr, "limits.txt", small);
    print_count(&rt, &stderr, limits);
}
