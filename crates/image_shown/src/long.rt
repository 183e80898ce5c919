// Images that a loop builds: long targets, and a node that is named more often than a byte counts.
ghost use Rattle.std.specs.Prelude.{◌≤◌};

use crate::show::show_start;
use fields::put;
use std::io;

// Room for 259 nodes and a literal.
const ROOM: usize = 2090;

// The header of an image of that many nodes and one literal, whose root is node 1, and the literal: 7.
fn frame(image: &mut [u8; ROOM], nodes: u16) {
    put(image, 0, 4, 1);
    put(image, 12, 12, u64::from(nodes));
    put(image, 24, 12, 1);
    put(image, 52, 12, 1);
    let literal = 64 + 64 * usize::from(nodes);
    put(image, literal, 4, 3);
    put(image, literal + 16, 64, 7);
}

// Node n of an image that has no functions.
fn node(image: &mut [u8; ROOM], n: u16, kind: u64, a: u16, next: u16) {
    let at = 64 * usize::from(n);
    put(image, at, 5, kind);
    put(image, at + 19, 12, u64::from(a));
    put(image, at + 43, 12, u64::from(next));
}

fn show_nodes(rt: &impl Print, label: &[u8], image: &[u8; ROOM], nodes: u16) -> io::Result<()> {
    show_start(rt, label, image, 18 + 8 * usize::from(nodes))
}

// The nodes 2 to last - 1: indices that each have the node after it as their target, or a chain of breaks that all have the
// last node as their value.
fn between(image: &mut [u8; ROOM], last: u16, breaks: bool) {
    for n in 2..last {
        if breaks {
            node(image, n, 12, last, n + 1);
        } else {
            node(image, n, 23, n + 1, 0);
        }
    }
}

// A read of a target of that many parts: `a.0.0.0 ..`.
fn target(rt: &impl Print, label: &[u8], parts: u8) -> io::Result<()> {
    let mut image = [0u8; ROOM];
    let last = u16::from(parts) + 2;
    frame(&mut image, last);
    node(&mut image, 1, 8, 2, 0);
    between(&mut image, last, false);
    node(&mut image, last, 21, 0, 0);
    show_nodes(rt, label, &image, last)
}

// A scope of that many breaks, all with one node as their value.
fn named(rt: &impl Print, label: &[u8], times: u16) -> io::Result<()>
    requires { times ≤ 257 }
{
    let mut image = [0u8; ROOM];
    let last = times + 2;
    frame(&mut image, last);
    node(&mut image, 1, 1, 2, 0);
    between(&mut image, last, true);
    node(&mut image, last - 1, 12, last, 0);
    node(&mut image, last, 9, 0, 0);
    show_nodes(rt, label, &image, last)
}

pub fn all(rt: &impl Print) -> io::Result<()> {
    target(rt, b"target of 64", 64)?;
    target(rt, b"target of 65", 65)?;
    target(rt, b"target of 66", 66)?;
    named(rt, b"node 3 named once", 1)?;
    named(rt, b"node 258 named 256 times", 256)?;
    named(rt, b"node 259 named 257 times (u8 wrap gives 1)", 257)
}
