// What a disk says of lines only after it has taken them.
use std::fs::{File, OpenFile};
use std::io::{Error, ErrorKind};
use std::rt::Files;
use std::{fs, io};

// Standard output by a name of the system's: only a file that is opened by its name can be synced.
const OUTPUT: &str = "/proc/self/fd/1";

// The file that standard output goes to; none where it goes to a pipe or a device, or may not be opened.
fn output_file<F: Files>(files: &F) -> Option<F::File> {
    let to = fs::metadata(files, OUTPUT).ok()?;
    if !to.is_file() {
        return None;
    }
    File::open(files, OUTPUT).ok()
}

// A file system that cannot sync says nothing of the lines.
fn is_loss(error: &Error) -> bool {
    let kind = error.kind();
    kind != ErrorKind::InvalidInput && kind != ErrorKind::Unsupported
}

// Fails where lines that the disk had taken are lost: one on a network may say only later that it was full.
pub(crate) fn sync<F: Files>(files: &F) -> io::Result<()> {
    let Some(file) = output_file(files) else {
        return Ok(());
    };
    match file.sync_data() {
        Err(error) if is_loss(&error) => Err(error),
        _ => Ok(()),
    }
}
