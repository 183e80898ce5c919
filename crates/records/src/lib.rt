// Refusal 3: the first bad record, in the order of the image.
#![tactic(auto)]

ghost use Rattle.std.specs.Prelude.{◌≡◌, ◌+◌, ◌≤◌, ◌<◌, length, ltb, eqb, true, ◌&&◌};
ghost use Rattle.utf8.specs.Utf8.{utf8_of};
ghost use Rattle.utf8.specs.Runs.{Stops};
ghost use Rattle.packed.specs.Layout.{literal_at};
ghost use Rattle.kinds.specs.Kinds.{tag_role};
ghost use Rattle.records.specs.Records.{is_node, function_good, fits as fits_of, node_good, is_scalar, image_text, part_good, part_of, payload_good, literal_good, record_good, record_offset, records_in, bad_record};

use kinds::{Role, row_of};
use packed::image::Image;
use packed::layout::{Function, Header, Node, Part, literals_at, nodes_at, text_at};
use utf8::{is_utf8, stops_of};

pub fn is_node(x: u16, nodes: u16) -> bool
    ensures { result ≡ is_node nodes x }
{
    x != 0 && x <= nodes
}

// Argument names stay below it.
const NAMES_END: usize = 1024;

#[tactic(auto, unfolding(crate::specs::Records::function_good))]
fn function_good(h: Header, f: Function) -> bool
    ensures { result ≡ function_good h f }
{
    is_node(f.body, h.nodes)
        && usize::from(f.first) + usize::from(f.count) <= NAMES_END
        && f.zero == 0
}

fn is_text(image: &Image, l: u16) -> bool
    ensures { result ≡ ltb l image.now.header.literals && eqb (literal_at image.now.bytes.now image.now.header l).kind 6 }
{
    // Told by the kind's number: see `kinds`.
    l < image.header.literals && image.literal(usize::from(l)).kind == 6
}

// Whether a field holds what its role asks.
#[tactic(auto, unfolding(crate::specs::Records::fits))]
fn fits(image: &Image, role: Role, x: u16) -> bool
    ensures { result ≡ fits_of image.now.bytes.now image.now.header role x }
{
    match role {
        Role::Unlisted => x == 0,
        Role::Number => true,
        Role::Literal => x < image.header.literals,
        Role::Text => is_text(image, x),
        Role::Function => x < u16::from(image.header.functions),
        Role::Node(needed, _, _) => {
            if needed {
                is_node(x, image.header.nodes)
            } else {
                x <= image.header.nodes
            }
        }
    }
}

// A let condition that binds nothing has no tag.
#[tactic(auto, unfolding(kinds::specs::Kinds::tag_role))]
fn tag_role(kind: u8, op: u8) -> Role
    ensures { result ≡ tag_role kind op }
{
    // Told by the kind's number: see `kinds`.
    if kind == 20 && op == 0 {
        return Role::Unlisted;
    }
    row_of(kind).tag
}

#[tactic(auto, unfolding(crate::specs::Records::node_good))]
fn node_good(image: &Image, d: Node) -> bool
    ensures { result ≡ node_good image.now.bytes.now image.now.header d }
{
    let line = row_of(d.kind);
    d.op < line.ops
        && d.zero == 0
        && d.next <= image.header.nodes
        && fits(image, tag_role(d.kind, d.op), d.tag)
        && fits(image, line.a, d.a)
        && fits(image, line.b, d.b)
}

fn is_scalar(x: u64) -> bool
    ensures { result ≡ is_scalar x }
{
    matches!(x, 0..=0xD7FF | 0xE000..=0x10FFFF)
}

#[tactic(auto, unfolding(crate::specs::Records::part_good))]
fn part_good(h: Header, p: Part) -> bool
    ensures { result ≡ part_good h p }
{
    p.zero == 0 && usize::from(p.start) + usize::from(p.length) <= usize::from(h.text)
}

// What stands after the records.
fn text<'a>(image: &'a Image) -> &'a [u8]
    ensures bytes { result.now ≡ image_text image.now.bytes.now image.now.header }
    ensures length { length result.now ≤ 65535 }
{
    let at = text_at(image.header);
    &image.bytes[at..at + usize::from(image.header.text)]
}

fn part_is_utf8(image: &Image, stops: &[u32; 1024], p: Part) -> bool
    requires { (part_good image.now.header p ≡ true) × Stops (image_text image.now.bytes.now image.now.header) stops.now }
    ensures { result ≡ utf8_of (part_of image.now.bytes.now image.now.header p) }
{
    let from = usize::from(p.start);
    is_utf8(text(image), stops, from, from + usize::from(p.length))
}

#[tactic(auto, unfolding(crate::specs::Records::payload_good))]
fn payload_good(image: &Image, stops: &[u32; 1024], l: usize, kind: u8, payload: u64) -> bool
    requires { (l < image.now.header.literals) × Stops (image_text image.now.bytes.now image.now.header) stops.now }
    ensures { result ≡ payload_good image.now.bytes.now image.now.header l kind payload }
{
    // Told by the kind's number: see `kinds`.
    match kind {
        0 => payload == 0,
        1 => payload <= 1,
        2..=4 => true,
        5 => is_scalar(payload),
        6 => {
            let p = image.part(l);
            part_good(image.header, p) && part_is_utf8(image, stops, p)
        }
        7 => part_good(image.header, image.part(l)),
        _ => false,
    }
}

#[tactic(auto, unfolding(crate::specs::Records::literal_good))]
fn literal_good(image: &Image, stops: &[u32; 1024], l: usize) -> bool
    requires { (l < image.now.header.literals) × Stops (image_text image.now.bytes.now image.now.header) stops.now }
    ensures { result ≡ literal_good image.now.bytes.now image.now.header l }
{
    let d = image.literal(l);
    d.zero == 0 && payload_good(image, stops, l, d.kind, d.payload)
}

// Record r of the image, counted from 0 through functions, nodes and literals.
#[tactic(auto, unfolding(crate::specs::Records::record_good))]
fn record_good(image: &Image, stops: &[u32; 1024], r: usize) -> bool
    requires { (r < records_in image.now.header) × Stops (image_text image.now.bytes.now image.now.header) stops.now }
    ensures { result ≡ record_good image.now.bytes.now image.now.header r }
{
    let functions = usize::from(image.header.functions);
    let nodes = usize::from(image.header.nodes);
    if r < functions {
        return function_good(image.header, image.function(r));
    }
    if r - functions < nodes {
        return node_good(image, image.node(r - functions + 1));
    }
    literal_good(image, stops, r - functions - nodes)
}

#[tactic(auto, unfolding(crate::specs::Records::record_offset))]
fn record_offset(h: Header, r: usize) -> usize
    requires { r < records_in h }
    ensures { result ≡ record_offset h r }
{
    let functions = usize::from(h.functions);
    let nodes = usize::from(h.nodes);
    if r < functions {
        return 8 + 4 * r;
    }
    if r - functions < nodes {
        return nodes_at(h) + 8 * (r - functions);
    }
    literals_at(h) + 10 * (r - functions - nodes)
}

// They are made once for the whole text: literals may all name the same bytes.
fn text_stops(image: &Image) -> [u32; 1024]
    ensures { Stops (image_text image.now.bytes.now image.now.header) result }
{
    stops_of(text(image))
}

// Where the first bad record stands.
pub fn bad_record(image: &Image) -> Option<usize>
    ensures { result ≡ bad_record image.now.bytes.now image.now.header }
{
    let records = usize::from(image.header.functions)
        + usize::from(image.header.nodes)
        + usize::from(image.header.literals);
    let stops = text_stops(image);
    for r in 0..records {
        if !record_good(image, &stops, r) {
            return Some(record_offset(image.header, r));
        }
    }
    None
}
