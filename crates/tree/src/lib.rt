// Refusal 4: the lowest node at fault.
#![tactic(auto)]

ghost use Rattle.std.specs.Prelude.{◌≡◌, ◌≤◌, ◌<◌, [], ◌∷◌, length, get_or, true, not, ◌||◌, eqb};
ghost use Rattle.packed.specs.Layout.{size_of, node_at};
ghost use Rattle.tree.specs.Tree.{named as named_of, names_of, bodies as bodies_of, node_names, heading as heading_of, marked, says, chain_by, goes as goes_of, parts as parts_of, names_well, is_named_well, node_right, lowest_fault, Added, Holds, Surveyed, GoodNodes};
ghost use Rattle.kinds.specs.Kinds.{is_of};
ghost use Rattle.records.specs.Records.{node_good};

use kinds::{Class, Role, is_expression, is_of, is_part, row_of};
use packed::image::Image;
use packed::layout::{Header, Node};

// What the passes over the image leave for each node: how often it is named, how often as a body, and the kind of the node in
// whose chain it stands.
#[derive(Drop)]
struct Findings {
    names: [u8; 4096],
    bodies: [u8; 4096],
    chains: [u8; 4096],
}

// Where a count stops, so that none wraps to 1.
const MOST_COUNTED: u8 = 255;

// One more naming of a node.
fn bump(counts: &mut [u8; 4096], node: u16)
    requires { (node < 4096) × (length counts.old ≡ 4096) }
    ensures { Added counts.old counts.new (node ∷ []) }
{
    let n = usize::from(node);
    if counts[n] < MOST_COUNTED {
        counts[n] += 1;
    }
}

// The node that a field names, 0 where its role is no node's.
fn named(role: Role, x: u16) -> u16
    ensures { result ≡ named_of role x }
{
    if let Role::Node(_, _, _) = role { x } else { 0 }
}

// The kind of a node whose field a heads a chain, else 0.
fn heading(kind: u8, role: Role) -> u8
    ensures { result ≡ heading_of kind role }
{
    match role {
        Role::Node(_, true, _) => kind,
        _ => 0,
    }
}

fn name_node(names: &mut [u8; 4096], d: Node)
    requires { (d.a < 4096) × (d.b < 4096) × (d.next < 4096) × (length names.old ≡ 4096) }
    ensures { Added names.old names.new (names_of d) }
{
    let line = row_of(d.kind);
    bump(names, named(line.a, d.a));
    bump(names, named(line.b, d.b));
    bump(names, d.next);
}

// Node n names `to` as a node of a chain that a node of that kind heads; 0 is no chain.
fn mark(chains: &mut [u8; 4096], n: u16, to: u16, kind: u8)
    requires { (to < 4096) × (length chains.old ≡ 4096) }
    ensures { Holds chains.new (λ m. marked n to kind m (get_or chains.old m 0)) }
{
    if kind != 0 && n < to {
        chains[usize::from(to)] = kind;
    }
}

fn mark_node(chains: &mut [u8; 4096], n: u16, d: Node)
    requires { (n < 4096) × (d.a < 4096) × (d.next < 4096) × (length chains.old ≡ 4096) }
    ensures { Holds chains.new (says n d (λ m. get_or chains.old m 0)) }
{
    let own = chains[usize::from(n)];
    mark(chains, n, d.next, own);
    mark(chains, n, d.a, heading(d.kind, row_of(d.kind).a));
}

fn count_bodies(image: &Image, names: &mut [u8; 4096], bodies: &mut [u8; 4096])
    requires { (length names.old ≡ 4096) × (length bodies.old ≡ 4096) }
    ensures of_names { Added names.old names.new (bodies_of image.now.bytes.now image.now.header.functions) }
    ensures of_bodies { Added bodies.old bodies.new (bodies_of image.now.bytes.now image.now.header.functions) }
{
    for f in 0..usize::from(image.header.functions) {
        let d = image.function(f);
        bump(names, d.body);
        bump(bodies, d.body);
    }
}

fn survey(image: &Image, names: &mut [u8; 4096], chains: &mut [u8; 4096])
    requires { (image.now.header.nodes < 4096) × (length names.old ≡ 4096) × Holds chains.old (λ m. 0) }
    ensures of_names { Added names.old names.new (node_names image.now.bytes.now image.now.header image.now.header.nodes) }
    ensures of_chains { Holds chains.new (chain_by image.now.bytes.now image.now.header image.now.header.nodes) }
{
    for n in 1..=image.header.nodes {
        let d = image.node(usize::from(n));
        name_node(names, d);
        mark_node(chains, n, d);
    }
}

// Whether what node n names in a field of that role goes to a greater number and to a kind that fits.
#[tactic(auto, unfolding(crate::specs::Tree::goes))]
fn goes(image: &Image, n: u16, role: Role, x: u16) -> bool
    requires { named_of role x ≤ image.now.header.nodes }
    ensures { result ≡ goes_of image.now.bytes.now image.now.header n role x }
{
    match role {
        Role::Unlisted => x == 0,
        Role::Node(_, _, class) => {
            x == 0 || (n < x && is_of(class, image.node(usize::from(x)).kind))
        }
        _ => true,
    }
}

// The parts of the target at node n, counted no further than 65.
fn parts(image: &Image, n: u16) -> u8
    requires { (1 ≤ n) × (n ≤ image.now.header.nodes) × GoodNodes image.now.bytes.now image.now.header }
    ensures { result ≡ parts_of image.now.bytes.now image.now.header 65 n }
{
    let mut at = n;
    for count in 0..65u8 {
        let d = image.node(usize::from(at));
        if !is_part(d.kind) {
            return count;
        }
        if d.a <= at {
            return count + 1;
        }
        at = d.a;
    }
    65
}

// Whether node n names well: what its a, its b and its next go to.
#[tactic(auto, unfolding(crate::specs::Tree::names_well))]
fn names_well(image: &Image, n: u16, d: Node, chain: u8) -> bool
    requires { node_good image.now.bytes.now image.now.header d ≡ true }
    ensures { result ≡ names_well image.now.bytes.now image.now.header n chain d }
{
    let line = row_of(d.kind);
    goes(image, n, line.a, d.a)
        && goes(image, n, line.b, d.b)
        && goes(image, n, row_of(chain).a, d.next)
}

fn is_root_well(h: Header, n: u16, kind: u8) -> bool
    ensures { result ≡ not (eqb n h.root) || is_of Class.Expression kind }
{
    n != h.root || is_expression(kind)
}

fn is_body_well(kind: u8, as_body: u8) -> bool
    ensures { result ≡ eqb as_body 0 || is_of Class.Scope kind }
{
    as_body == 0 || kind == 1
}

// How often a node is named.
const NAMINGS: u8 = 1;

// Whether node n is named as it should be: once, the root an expression and a body a scope.
#[tactic(auto, unfolding(crate::specs::Tree::is_named_well))]
fn is_named_well(h: Header, n: u16, kind: u8, times: u8, as_body: u8) -> bool
    ensures { result ≡ is_named_well h n kind times as_body }
{
    times == NAMINGS && is_root_well(h, n, kind) && is_body_well(kind, as_body)
}

// The parts that a target has at most.
const MOST_PARTS: u8 = 64;

#[tactic(auto, unfolding(crate::specs::Tree::node_right))]
fn node_right(image: &Image, n: u16, found: &Findings) -> bool
    requires { (1 ≤ n) × (n ≤ image.now.header.nodes) × GoodNodes image.now.bytes.now image.now.header × Surveyed image.now.bytes.now image.now.header found.now.names found.now.bodies found.now.chains }
    ensures { result ≡ node_right image.now.bytes.now image.now.header n (node_at image.now.bytes.now image.now.header n) }
{
    let at = usize::from(n);
    let d = image.node(at);
    names_well(image, n, d, found.chains[at])
        && parts(image, n) <= MOST_PARTS
        && is_named_well(image.header, n, d.kind, found.names[at], found.bodies[at])
}

fn first_wrong(image: &Image, found: &Findings) -> Option<usize>
    requires { GoodNodes image.now.bytes.now image.now.header × Surveyed image.now.bytes.now image.now.header found.now.names found.now.bodies found.now.chains }
    ensures { result ≡ lowest_fault image.now.bytes.now image.now.header }
{
    for n in 1..=image.header.nodes {
        if !node_right(image, n, found) {
            return Some(usize::from(n));
        }
    }
    None
}

// The lowest node at fault, in an image whose records are good.
pub fn lowest_fault(image: &Image) -> Option<usize>
    requires { (image.now.header.root < 4096) × GoodNodes image.now.bytes.now image.now.header }
    ensures { result ≡ lowest_fault image.now.bytes.now image.now.header }
{
    let mut found = Findings {
        names: [0; 4096],
        bodies: [0; 4096],
        chains: [0; 4096],
    };
    bump(&mut found.names, image.header.root);
    count_bodies(image, &mut found.names, &mut found.bodies);
    survey(image, &mut found.names, &mut found.chains);
    first_wrong(image, &found)
}
