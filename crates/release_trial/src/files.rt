// The file that the calls are made on: the first bytes of a buffer. Each function gives back how many they are then.
use std::fs;
use std::io::{self, Read};
use std::rt::Files;
use trial::script::{small_byte, within};

// Opens the file of that name, which is text.
fn open<R: Files>(rt: &R, name: &[u8]) -> io::Result<R::File> {
    match str::from_utf8(name) {
        Ok(path) => fs::open(rt, path),
        Err(_) => Err(io::Error::from(io::ErrorKind::NotFound)),
    }
}

// The bytes of an opened file; none, if it was not opened or cannot be read.
fn fetch<R: Read + Drop>(opened: io::Result<R>, file: &mut [u8]) -> usize {
    match opened {
        Ok(mut reader) => stream::read_full(&mut reader, file).unwrap_or(0),
        Err(_) => 0,
    }
}

// The file that a line names after "file ", and a line that says so; none, if there is no such file.
pub fn load(rt: &(impl Files + Print), line: &[u8], file: &mut [u8]) -> io::Result<usize> {
    if line.len() < 7 {
        return Ok(0);
    }
    let end = line.len() - 1;
    let name = &line[5..end];
    let n = fetch(open(rt, name), file);
    print!(rt; "file ")?;
    rt.write_all(name)?;
    println!(rt; " bytes {n}")?;
    Ok(n)
}

// A byte after the last.
pub fn add(file: &mut [u8], length: usize, x: u64) -> usize {
    match file.get_mut(length) {
        Some(byte) => {
            *byte = small_byte(x);
            length + 1
        }
        None => length,
    }
}

// Another byte at place i.
pub fn put(file: &mut [u8], length: usize, i: u64, x: u64) -> usize {
    if let Some(byte) = file.get_mut(within(i, length)) {
        *byte = small_byte(x);
    }
    length
}
