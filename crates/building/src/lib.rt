// What vec, tuple, object and template make of their items, as interpreter.rs has it: the items are pending from `from` on.
#![tactic(auto)]

ghost use Rattle.std.specs.Prelude.{◌≡◌, ◌≤◌, ◌<◌, length};
ghost use Rattle.numbers.specs.Decimal.{put_of, end_of};
ghost use Rattle.stores.specs.Lent.{SameSlices};
ghost use Rattle.stores.specs.Stores.{Fits, Makes, MakesWords};
ghost use Rattle.building.specs.Making.{onward_of, IsKind, StoresMadeItems, object_made, EntriesPut, Judging, printed_text, ComponentsPut, template_made};

use boxes::{put_head, take_items};
use entries::put_entry;
use numbers::decimal::put_decimal;
use packed::image::Image;
use packed::layout::Node;
use rules::{Refusal, Refused, Value};
use slots::literals::key_of;
use stores::lent::Stores;
use stores::pending::{keep_pending, pending_at};
use stores::run::{MOST_CELLS, Run};
use texts::{put_bool, put_part, put_text};

// The head of the items, as a vec or a tuple has it.
pub fn make_items(stores: &mut Stores, n: u16, from: u64) -> Result<u32, Refused>
    ensures store { StoresMadeItems result n from stores.old stores.new }
    ensures bytes { stores.new.bytes.now ≡ stores.old.bytes.now }
    ensures same { SameSlices stores.old stores.new }
{
    let head = stores.run.cells as u32;
    if take_items(stores, from) {
        return Ok(head);
    }
    Err(Refused {
        why: Refusal::Cells,
        place: n,
    })
}

// The next node of a chain.
pub fn onward(node: Node, i: u16) -> u16
    ensures { result ≡ onward_of node i }
{
    if i < node.next { node.next } else { 0 }
}

// The entries of object n put after its head, from the pending items `from` up to `to`. Gives where the object ends, if there are cells enough.
fn put_entries(
    image: &Image,
    words: &mut [u64],
    n: u16,
    head: usize,
    from: usize,
    to: usize,
) -> Option<usize>
    requires { IsKind 15 image.now.bytes.now image.now.header n × (head < 1024) × (to ≤ 512) × (8192 ≤ length words.old) }
    ensures { EntriesPut image.now.bytes.now image.now.header n head from to result words.old words.new }
{
    let mut end = head + 1;
    let mut i = image.node(n as usize).a;
    for at in from..to {
        if i == 0 {
            break;
        }
        let entry = image.node(i as usize);
        end = put_entry(image, words, head, end, key_of(image, entry.a), at)?;
        i = onward(entry, i);
    }
    Some(end)
}

// The object at node n: a head, and a cell for each key. It has no use for bytes, and asks for none.
pub fn make_object(
    image: &Image,
    words: &mut [u64],
    run: &mut Run,
    n: u16,
    from: u64,
) -> Result<Value, Refused>
    requires { IsKind 15 image.now.bytes.now image.now.header n × Fits run.old words.old }
    ensures { MakesWords result (object_made image.now.bytes.now image.now.header n from) run.old words.old run.new words.new }
{
    let no_cells = Refused {
        why: Refusal::Cells,
        place: n,
    };
    if MOST_CELLS <= run.cells {
        return Err(no_cells);
    }
    let head = run.cells as usize;
    put_head(words, head, 0);
    let to = run.pending as usize;
    let end = put_entries(image, words, n, head, from as usize, to).ok_or(no_cells)?;
    run.cells = end as u64;
    keep_pending(run, from);
    Ok(Value::Object(head as u32))
}

// Why a value does not print in a template, if it does not.
pub fn judge_component(v: Value) -> Result<(), Refusal>
    ensures { Judging result v }
{
    match v {
        Value::Signed(_) | Value::Bool(_) | Value::Text(_, _) => Ok(()),
        Value::Float(_) => Err(Refusal::FloatInTemplate),
        _ => Err(Refusal::NotConst),
    }
}

// Puts what a value prints at `at`, the first `made` bytes having been built before; what does not print puts nothing.
fn put_value(image: &Image, made: usize, v: Value, bytes: &mut [u8], at: usize) -> Option<usize>
    requires { (made ≤ at) × (at ≤ length bytes.old) }
    ensures end { result ≡ end_of bytes.old at (printed_text image.now.bytes.now image.now.header made bytes.old v) }
    ensures bytes { bytes.new ≡ put_of bytes.old at (printed_text image.now.bytes.now image.now.header made bytes.old v) }
{
    match v {
        Value::Signed(x) => put_decimal(bytes, at, x),
        Value::Bool(b) => put_bool(b, bytes, at),
        Value::Text(start, len) => put_text(image, made, start, len, bytes, at),
        _ => Some(at),
    }
}

// The components of template n put after the first `made` bytes, from the pending items `from` up to `to`.
fn put_components(
    image: &Image,
    words: &[u64],
    n: u16,
    from: usize,
    to: usize,
    made: usize,
    bytes: &mut [u8],
) -> Option<usize>
    requires { IsKind 6 image.now.bytes.now image.now.header n × (to ≤ 512) × (8192 ≤ length words.now) × (made ≤ length bytes.old) }
    ensures { ComponentsPut image.now.bytes.now image.now.header words.now n from to made result bytes.old bytes.new }
{
    let mut end = made;
    let mut items = from..to;
    // Not each node takes an item, so the loop goes along the chain and asks for an item where one is due.
    let mut i = image.node(n as usize).a;
    while i != 0 {
        let node = image.node(i as usize);
        // Told by the kind's number: see `kinds`.
        end = if node.kind == 17 {
            put_part(image, key_of(image, node.a), bytes, end)?
        } else {
            let Some(item) = items.next() else {
                return Some(end);
            };
            put_value(image, made, pending_at(words, item), bytes, end)?
        };
        i = onward(node, i);
    }
    Some(end)
}

// The template at node n: the text of its components, built after what was built before. It only reads the words, and asks for no more than that.
pub fn make_template(
    image: &Image,
    words: &[u64],
    bytes: &mut [u8],
    run: &mut Run,
    n: u16,
    from: u64,
) -> Result<Value, Refused>
    requires { IsKind 6 image.now.bytes.now image.now.header n × Fits run.old words.now × (length bytes.old ≡ 16384) }
    ensures { Makes result (template_made image.now.bytes.now image.now.header n from) run.old words.now bytes.old run.new words.now bytes.new }
{
    let made = run.text as usize;
    let to = run.pending as usize;
    let put = put_components(image, words, n, from as usize, to, made, bytes);
    let end = put.ok_or(Refused {
        why: Refusal::TextBytes,
        place: n,
    })?;
    run.text = end as u64;
    keep_pending(run, from);
    Ok(Value::Text(image.header.text as u32 + made as u32, (end - made) as u16))
}
