// The line for an image.
use image::load;
use std::io;

pub fn show(rt: &impl Print, label: &[u8], image: &[u8]) -> io::Result<()> {
    rt.write_all(label)?;
    match load(image) {
        Ok(_) => rt.write_all(b": loads\n"),
        Err(refusal) => println!(rt; ": {} at {}", refusal.number(), refusal.place()),
    }
}

// An image that is the first n bytes of an array.
pub fn show_start(rt: &impl Print, label: &[u8], bytes: &[u8], n: usize) -> io::Result<()> {
    if n <= bytes.len() {
        return show(rt, label, &bytes[0..n]);
    }
    Ok(())
}
