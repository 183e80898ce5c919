// Which images of document 01 load, and the refusals 1 to 4 of those that do not.
#![tactic(auto)]

ghost use Rattle.std.specs.Prelude.{◌≡◌};
ghost use Rattle.packed.specs.Layout.{header_of};
ghost use Rattle.image.specs.Load.{error_number, error_place, judged, load_of};

use packed::image::Image;
use packed::layout::{Header, header_of, size_of};
use records::{bad_record, is_node};
use tree::lowest_fault;

// Why an image does not load, with its place.
#[derive(Clone, Copy, Debug, PartialEq, Eq)]
pub enum LoadError {
    // 1: it is shorter than a header, or not as long as its header says
    BadLength,
    // 2: its edition or its root
    BadHeader,
    // 3: the byte offset of the first bad record
    BadRecord(usize),
    // 4: the lowest node at fault
    BadTree(usize),
}

impl LoadError {
    // 01's number of the refusal.
    pub fn number(self) -> u8
        ensures { result ≡ error_number self }
    {
        match self {
            LoadError::BadLength => 1,
            LoadError::BadHeader => 2,
            LoadError::BadRecord(_) => 3,
            LoadError::BadTree(_) => 4,
        }
    }

    // 01's place of the refusal, 0 where it has none.
    pub fn place(self) -> usize
        ensures { result ≡ error_place self }
    {
        match self {
            LoadError::BadRecord(at) => at,
            LoadError::BadTree(n) => n,
            LoadError::BadLength | LoadError::BadHeader => 0,
        }
    }
}

// The one edition that loads.
const EDITION: u8 = 1;

#[tactic(auto, unfolding(crate::specs::Load::judged))]
fn judge(image: &[u8], h: Header) -> Result<Header, LoadError>
    requires { h ≡ header_of image.now }
    ensures { result ≡ judged image.now h }
{
    if h.edition != EDITION {
        return Err(LoadError::BadHeader);
    }
    if image.len() != size_of(h) {
        return Err(LoadError::BadLength);
    }
    if !is_node(h.root, h.nodes) {
        return Err(LoadError::BadHeader);
    }
    let whole = Image {
        bytes: image,
        header: h,
    };
    if let Some(at) = bad_record(&whole) {
        return Err(LoadError::BadRecord(at));
    }
    match lowest_fault(&whole) {
        Some(n) => Err(LoadError::BadTree(n)),
        None => Ok(h),
    }
}

// The bytes of a header.
const HEADER_LENGTH: usize = 8;

// Whether an image loads, and the first refusal in 01's order where it does not.
#[tactic(auto, unfolding(crate::specs::Load::load_of))]
pub fn load(image: &[u8]) -> Result<Header, LoadError>
    ensures { result ≡ load_of image.now }
{
    if image.len() < HEADER_LENGTH {
        return Err(LoadError::BadLength);
    }
    judge(image, header_of(image))
}
