// An image from the file that the second argument names.
ghost use Rattle.std.specs.Prelude.{◌≤◌, length, IfOk, IfSome};

use printing::Page;
use reading::read_full;
use std::fmt::Write;
use std::fs::File;
use std::io::{Error, ErrorKind, Read};
use std::rt::{Env, Files};
use std::{io, str};

// Says on standard error what is wrong with a file, and why where the system says it.
fn tell(stderr: &impl Print, what: &str, path: &[u8], why: Option<&Error>) {
    let mut room = [0u8; 8192];
    let mut page = Page::new(&mut room);
    let _ = write!(page, "gable: {what}");
    page.bytes(path);
    match why {
        Some(why) => page.warn_errno(stderr, why),
        None => {
            page.byte(b'\n');
            page.warn(stderr);
        }
    }
}

// How much was read; none if the file goes on: the read after the last tells that, or why there is no more.
fn read_to_end(file: &mut impl Read, image: &mut [u8]) -> io::Result<Option<usize>>
    ensures { IfOk result (λ some. IfSome some (λ n. n ≤ length image.new)) }
{
    let length = read_full(file, image);
    let mut beyond = [0u8; 1];
    if file.read(&mut beyond)? == 0 {
        Ok(Some(length))
    } else {
        Ok(None)
    }
}

// How long an open file is, all of it and not a byte more; none, and why not is told, where it is no image.
fn read_whole(
    file: &mut impl Read,
    stderr: &impl Print,
    path: &[u8],
    image: &mut [u8],
) -> Option<usize>
    ensures { IfSome result (λ n. n ≤ length image.new) }
{
    match read_to_end(file, image) {
        Ok(Some(length)) => Some(length),
        Ok(None) => {
            tell(
                stderr,
                "name an image of at most 140273 bytes, not ",
                path,
                None,
            );
            None
        }
        Err(why) => {
            tell(
                stderr,
                "name an image file that can be read, not ",
                path,
                Some(&why),
            );
            None
        }
    }
}

// What the system's error for a path that is too long is, by its number.
const TOO_LONG: i32 = 36;

// Files are opened by text.
fn opened<R: Files>(rt: &R, path: &[u8]) -> io::Result<R::File> {
    match str::from_utf8(path) {
        Ok(path) => File::open(rt, path),
        Err(_) => Err(Error::new(ErrorKind::InvalidFilename, "the path is not UTF-8")),
    }
}

// How many bytes the image has; none, and why not is told, where there is none.
pub fn load(rt: &(impl Env + Files), stderr: &impl Print, image: &mut [u8]) -> Option<usize>
    ensures { IfSome result (λ n. n ≤ length image.new) }
{
    let mut path = [0u8; 4096];
    let Ok(n) = rt.arg(2, &mut path) else {
        let why = Error::from_raw_os_error(TOO_LONG);
        tell(stderr, "name the image by a shorter path", b"", Some(&why));
        return None;
    };
    match opened(rt, &path[..n]) {
        Ok(mut file) => read_whole(&mut file, stderr, &path[..n], image),
        Err(why) => {
            tell(
                stderr,
                "name an image file that can be opened, not ",
                &path[..n],
                Some(&why),
            );
            None
        }
    }
}
