// Loads images and writes a line for each: what it is, and that it loads or the number and the place of its refusal.
#![tactic(auto)]

mod long; // images that a loop builds
mod show; // the line for an image
mod small; // small images, each for one rule
mod worked; // the images of 01's worked programs
mod whole; // an image with every kind of node and of literal, and what damage to one field does

use std::io;

fn main(rt: HostRuntime) -> io::Result<()> {
    small::all(&rt)?;
    long::all(&rt)?;
    whole::all(&rt)?;
    worked::all(&rt)
}
