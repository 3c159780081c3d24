// A file's bytes, or in words why there are none.
ghost use Rattle.std.specs.Prelude.{◌≤◌, length, IfOk};

use show::Sink;
use std::io::{Error, ErrorKind, Read};

// What is wrong with a file, or with an argument.
pub fn wrong(err: Sink, name: &[u8], words: &str) {
    write!(err, "plan: ");
    err.write_all(name);
    write!(err, ": {words}\n");
}

// Why a file could not be opened.
pub fn unopened(error: &Error) -> &'static str {
    match error.kind() {
        ErrorKind::NotFound => "there is no such file",
        ErrorKind::PermissionDenied => "the file may not be read",
        _ => "the file cannot be opened",
    }
}

// Why nothing could be read.
pub fn unread(error: &Error) -> &'static str {
    match error.kind() {
        ErrorKind::IsADirectory => "a directory, not a file",
        _ => "the file is empty",
    }
}

// Reads until the text is full or the file ends, and how many bytes these were; an error where the first read fails.
pub fn read_full<F: Read>(file: &mut F, text: &mut [u8]) -> std::io::Result<usize>
    ensures { IfOk result (λ n. n ≤ length text.new) }
{
    let mut done = 0;
    // No `for`: it goes on by as many bytes as were read.
    while done < text.len() {
        match file.read(&mut text[done..]) {
            Ok(n) => {
                if n == 0 {
                    return Ok(done);
                }
                done += n;
            }
            Err(error) => {
                if done == 0 {
                    return Err(error);
                }
                return Ok(done);
            }
        }
    }
    Ok(done)
}

// What mark a text begins with that no route has, in words.
pub fn marked(text: &[u8]) -> Option<&'static str> {
    match text {
        [0xef, 0xbb, 0xbf, ..] => {
            Some("the file begins with a byte-order mark; save it without one, as plain text")
        }
        [0xff, 0xfe, ..] | [0xfe, 0xff, ..] => Some("the file is UTF-16; save it as plain text"),
        _ => None,
    }
}

// Whether an argument is an option: it begins with - and has more.
pub fn is_option(name: &[u8]) -> bool {
    matches!(name, [b'-', _, ..])
}
