//! Runs the script on standard input, and prints what it answers. Where a file is named as the one argument, the image
//! that the script leaves is written to it.
//! It reads no more than 65,536 bytes, which are enough to tell that a script is too long, and needs no memory.
#![tactic(auto)]

use arrayvec::ArrayVec;
use images::flash::MAX_IMAGE;
use script::script::print_script;
use std::env::{Env, FillError};
use std::io::Read;
use std::{fs, io};

// one byte more than the longest script
const ENOUGH: usize = 65_536;

// the longest name of a file
const MAX_NAME: usize = 4_096;

fn main(rt: HostRuntime) -> io::Result<()> {
    let mut name = [0; MAX_NAME];
    let file = file_name(&rt, &mut name)?;
    let mut script = ArrayVec::<u8, ENOUGH>::new();
    io::copy(&mut rt.stdin().take(ENOUGH as u64), &mut script)?;
    let mut image = [0; MAX_IMAGE];
    let outcome = print_script(script.as_slice(), &mut image, rt.stdout());
    // The image is there whether or not its replies could be written, so it is saved before a fault of these is answered.
    if let (Some(file), Some(size)) = (file, outcome.size) {
        fs::write(&rt, file, &image[..size])?;
    }
    outcome.written
}

// The argument, if there is one. More of them, and one that is no text or too long, are refused.
fn file_name<'a>(rt: &impl Env, name: &'a mut [u8]) -> io::Result<Option<&'a str>> {
    let length = match rt.arg(1, name) {
        Ok(length) => length,
        Err(FillError::NotPresent) => return Ok(None),
        Err(FillError::TooLong) => return Err(io::ErrorKind::InvalidFilename.into()),
    };
    if !matches!(rt.arg(2, &mut []), Err(FillError::NotPresent)) {
        return Err(io::ErrorKind::InvalidInput.into());
    }
    match str::from_utf8(&name[..length]) {
        Ok(name) => Ok(Some(name)),
        Err(_) => Err(io::ErrorKind::InvalidFilename.into()),
    }
}
