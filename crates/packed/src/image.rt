// An image that is as long as its header says, and its records.
ghost use Rattle.std.specs.Prelude.{◌≡◌, ◌≤◌, ◌<◌, length};
ghost use Rattle.packed.specs.Layout.{size_of, function_at, node_at, literal_at, part_at};

use crate::layout::{Function, Header, Literal, Node, Part, literals_at, nodes_at};
use fields::{cut, number_at};

#[derive(Clone, Copy)]
pub struct Image<'a> {
    pub bytes: &'a [u8],
    pub header: Header,
    pub ghost whole: { size_of header ≤ length bytes.now },
}

// Functions and literals count from 0, nodes from 1.
impl Image<'_> {
    pub fn function(&self, f: usize) -> Function
        requires { (f < self.now.header.functions) }
        ensures { result ≡ function_at self.now.bytes.now f }
    {
        let w = number_at::<4>(self.bytes, 8 + 4 * f);
        Function {
            body: cut(w, 20, 12) as u16,
            count: cut(w, 16, 4) as u8,
            first: cut(w, 6, 10) as u16,
            zero: cut(w, 0, 6) as u8,
        }
    }

    pub fn node(&self, n: usize) -> Node
        requires { (1 ≤ n) × (n ≤ self.now.header.nodes) }
        ensures { result ≡ node_at self.now.bytes.now self.now.header n }
    {
        let w = number_at::<8>(self.bytes, nodes_at(self.header) + 8 * (n - 1));
        Node {
            kind: cut(w, 59, 5) as u8,
            op: cut(w, 55, 4) as u8,
            tag: cut(w, 45, 10) as u16,
            a: cut(w, 33, 12) as u16,
            b: cut(w, 21, 12) as u16,
            next: cut(w, 9, 12) as u16,
            zero: cut(w, 0, 9) as u16,
        }
    }

    pub fn literal(&self, l: usize) -> Literal
        requires { (l < self.now.header.literals) }
        ensures { result ≡ literal_at self.now.bytes.now self.now.header l }
    {
        let at = literals_at(self.header) + 10 * l;
        let w = number_at::<2>(self.bytes, at);
        Literal {
            kind: cut(w, 12, 4) as u8,
            zero: cut(w, 0, 12) as u16,
            payload: number_at::<8>(self.bytes, at + 2),
        }
    }

    pub fn part(&self, l: usize) -> Part
        requires { (l < self.now.header.literals) }
        ensures { result ≡ part_at self.now.bytes.now self.now.header l }
    {
        let w = number_at::<8>(self.bytes, literals_at(self.header) + 10 * l + 2);
        Part {
            zero: cut(w, 32, 32) as u32,
            start: cut(w, 16, 16) as u16,
            length: cut(w, 0, 16) as u16,
        }
    }
}
