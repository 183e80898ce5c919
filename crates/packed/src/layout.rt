// The header and the records by their fields, and the places of the four regions.
ghost use Rattle.std.specs.Prelude.{◌≡◌, ◌≤◌, length};
ghost use Rattle.packed.specs.Layout.{header_of, nodes_at, literals_at, text_at, size_of};

use fields::{cut, number_at};

#[derive(Clone, Copy, Debug, PartialEq, Eq)]
pub struct Header {
    pub edition: u8,
    pub functions: u8,
    pub nodes: u16,
    pub literals: u16,
    pub text: u16,
    pub root: u16,
}

#[derive(Clone, Copy, Debug, PartialEq, Eq)]
pub struct Function {
    pub body: u16,
    pub count: u8,
    pub first: u16,
    pub zero: u8,
}

#[derive(Clone, Copy, Debug, PartialEq, Eq)]
pub struct Node {
    pub kind: u8,
    pub op: u8,
    pub tag: u16,
    pub a: u16,
    pub b: u16,
    pub next: u16,
    pub zero: u16,
}

#[derive(Clone, Copy, Debug, PartialEq, Eq)]
pub struct Literal {
    pub kind: u8,
    pub zero: u16,
    pub payload: u64,
}

// The part of the text that a literal of kind 6 or 7 names.
#[derive(Clone, Copy, Debug, PartialEq, Eq)]
pub struct Part {
    pub zero: u32,
    pub start: u16,
    pub length: u16,
}

pub fn header_of(image: &[u8]) -> Header
    requires { 8 ≤ length image.now }
    ensures { result ≡ header_of image.now }
{
    let w = number_at::<8>(image, 0);
    Header {
        edition: cut(w, 60, 4) as u8,
        functions: cut(w, 52, 8) as u8,
        nodes: cut(w, 40, 12) as u16,
        literals: cut(w, 28, 12) as u16,
        text: cut(w, 12, 16) as u16,
        root: cut(w, 0, 12) as u16,
    }
}

// Where the nodes, the literals and the text begin, and where the image ends.
pub fn nodes_at(h: Header) -> usize
    ensures { result ≡ nodes_at h }
{
    8 + 4 * usize::from(h.functions)
}

pub fn literals_at(h: Header) -> usize
    ensures { result ≡ literals_at h }
{
    nodes_at(h) + 8 * usize::from(h.nodes)
}

pub fn text_at(h: Header) -> usize
    ensures { result ≡ text_at h }
{
    literals_at(h) + 10 * usize::from(h.literals)
}

pub fn size_of(h: Header) -> usize
    ensures { result ≡ size_of h }
{
    text_at(h) + usize::from(h.text)
}
